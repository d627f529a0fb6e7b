//! The words that the program was started with.
use fx_base::{Memory, Text};
use std::alloc::Global;
use std::env::{Env, FillError};

// Few words are longer, so that most take one call.
const FIRST_SIZE: usize = 256;

/// The words after the program's name, byte for byte: std's `args` refuses a word that isn't UTF-8.
pub fn arguments<E: Env>(alloc: Global, environment: &E) -> Result<Vec<Text>, Memory> {
    let mut words = Vec::new(alloc);
    for index in 1..usize::MAX {
        let Some(word) = argument(alloc, environment, index)? else {
            break;
        };
        words.push(word)?;
    }
    Ok(words)
}

// Doubles the buffer until the word fits. A word that fits no buffer can't be held.
fn argument<E: Env>(alloc: Global, environment: &E, index: usize) -> Result<Option<Text>, Memory> {
    let mut size = FIRST_SIZE;
    for _ in 0..usize::BITS {
        let mut bytes = Vec::new(alloc);
        bytes.resize(size, 0u8)?;
        match environment.arg(index, bytes.as_mut_slice()) {
            Ok(len) => {
                bytes.truncate(len);
                return Ok(Some(Text::from_vec(bytes)?));
            }
            Err(FillError::TooLong) => size = size.saturating_mul(2),
            Err(FillError::NotPresent) => return Ok(None),
        }
    }
    Err(Memory)
}
