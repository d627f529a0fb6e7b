//! Texts that were seen lately, so that equal ones share their bytes.
ghost use Rattle.std.specs.Prelude.{◌≡◌, IfOk};

use fx_base::{Memory, Text, same};
use std::alloc::Global;

/// So many places there are for texts.
const PLACES: usize = 8192;

/// Longer texts are left as they are, so that the table keeps few bytes.
const MOST_BYTES: usize = 38;

/// A place for each text that was seen lately, by its bytes; a text takes the place of another one. No contract knows what is held:
/// what is given is the text that was asked for.
#[derive(Drop)]
pub struct TextTable {
    alloc: Global,
    places: Vec<Text>,
}

impl TextTable {
    pub fn new(alloc: Global) -> Result<Self, Memory> {
        let none = Text::new(alloc, b"")?;
        let mut places = Vec::with_capacity(alloc, PLACES)?;
        for _ in 0..PLACES {
            places.push(none.clone()?)?;
        }
        Ok(TextTable { alloc, places })
    }

    pub fn alloc(&self) -> Global {
        self.alloc
    }

    /// The text, by the bytes that an equal one had.
    pub fn shared(&mut self, text: &Text) -> Result<Text, Memory>
        ensures { IfOk result (λ same. same ≡ text.now) }
    {
        if MOST_BYTES < text.bytes().len() {
            return Ok(text.clone()?);
        }
        let at = place_of(text.bytes());
        let Some(held) = self.places.get_mut(at) else {
            return Ok(text.clone()?);
        };
        if same(held, text) {
            return Ok(held.clone()?);
        }
        *held = text.clone()?;
        Ok(text.clone()?)
    }
}

// Equal texts have one place, and others mostly have others.
fn place_of(bytes: &[u8]) -> usize {
    let mut mixed: u32 = 0x811c_9dc5;
    for byte in bytes {
        mixed = (mixed ^ u32::from(*byte)).wrapping_mul(0x0100_0193);
    }
    (mixed ^ (mixed >> 15)) as usize % PLACES
}
