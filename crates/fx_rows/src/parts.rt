//! Numbers and words at the end of a line.
ghost use Rattle.std.specs.Prelude.{◌≡◌, ◌++◌, ◌∷◌, OnOk, decimal};

use fx_base::Memory;
use itoa::Buffer;

pub fn push_decimal(line: &mut Vec<u8>, number: u64) -> Result<(), Memory>
    ensures { OnOk result (line.new.items ≡ line.old.items ++ decimal number) }
{
    let mut buffer = Buffer::new();
    line.extend_from_slice(buffer.format(number).as_bytes())?;
    Ok(())
}

/// Two pieces, one behind the other.
pub fn push_both(line: &mut Vec<u8>, first: &[u8], second: &[u8]) -> Result<(), Memory>
    ensures { OnOk result (line.new.items ≡ line.old.items ++ (first.now ++ second.now)) }
{
    line.extend_from_slice(first)?;
    line.extend_from_slice(second)?;
    Ok(())
}

/// A space and a word.
pub fn push_word(line: &mut Vec<u8>, word: &[u8]) -> Result<(), Memory>
    ensures { OnOk result (line.new.items ≡ line.old.items ++ (32 ∷ word.now)) }
{
    line.extend_from_slice(b" ")?;
    line.extend_from_slice(word)?;
    Ok(())
}
