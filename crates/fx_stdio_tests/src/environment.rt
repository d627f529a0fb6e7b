//! The words, as an environment gives them.
use fx_stdio::arguments;
use std::env::{Env, FillError};

/// A program's name, a long word, and one that isn't UTF-8.
struct Words;

impl Env for Words {
    fn arg(&self, i: usize, buf: &mut [u8]) -> Result<usize, FillError> {
        let (len, byte) = match i {
            0 => (4, b'f'),
            1 => (600, b'n'),
            2 => (1, 0xff),
            _ => return Err(FillError::NotPresent),
        };
        let Some(place) = buf.get_mut(..len) else {
            return Err(FillError::TooLong);
        };
        place.fill(byte);
        Ok(len)
    }

    fn var(&self, _name: &str, _buf: &mut [u8]) -> Result<usize, FillError> {
        Err(FillError::NotPresent)
    }

    fn var_at(&self, _i: usize, _buf: &mut [u8]) -> Result<usize, FillError> {
        Err(FillError::NotPresent)
    }
}

#[test]
fn arguments_are_read_byte_for_byte(rt: HostRuntime) {
    let words = arguments(rt.alloc(), &Words).expect(&rt, "there is memory");
    assert_eq!(rt; words.len(), 2);
    assert_eq!(rt; words[0].bytes(), [b'n'; 600].as_slice());
    assert_eq!(rt; words[1].bytes(), [0xff].as_slice());
}
