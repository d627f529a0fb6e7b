//! The tokens, each read where a text begins.
ghost use Rattle.std.specs.Prelude.{◌≡◌, ◌<◌, ◌≤◌, ◌+◌, length, IfOk, IsTrue, ◌↔◌, true};
ghost use Rattle.fx_selector.specs.Phrase.{is_blank, is_key, is_quote, is_text};
ghost use Rattle.fx_selector.specs.Reading.{skip, mark, word, closed, run, begins_with};
ghost use Rattle.fx_selector.specs.Gives.{Gives};

use crate::fault::{Fault, ParseError};
use fx_base::Text;
use std::alloc::Global;

#[tactic(auto, unfolding(crate::specs::Phrase::is_key))]
pub fn is_key_byte(c: u8) -> bool
    ensures { result ≡ is_key c }
{
    matches!(c, b'a'..=b'z' | b'A'..=b'Z' | b'-'..=b'9' | b'_')
}

pub fn past_blanks<'a>(rest: &'a [u8]) -> &'a [u8]
    ensures reads { result.now ≡ skip rest.now }
    ensures shorter { length result.now ≤ length rest.now }
{
    let mut after = rest;
    while let Some((c, more)) = after.split_first() {
        if *c != b' ' && *c != b'\t' {
            break;
        }
        after = more;
    }
    after
}

pub fn mark_of<'a>(bytes: &[u8], rest: &'a [u8]) -> Result<&'a [u8], ParseError>
    ensures reads { Gives (λ _. tt) (λ r. r.now) result (mark bytes.now rest.now) }
    ensures shorter { IfOk result (λ r. length r.now + length bytes.now ≤ length rest.now) }
{
    let mut left = bytes;
    let mut after = rest;
    while let Some((b, others)) = left.split_first() {
        match after.split_first() {
            Some((c, more)) if *c == *b => {
                left = others;
                after = more;
            }
            _ => return Err(ParseError::At(Fault::Unexpected, after.len())),
        }
    }
    Ok(past_blanks(after))
}

pub fn word_of<'a>(
    alloc: Global,
    limit: usize,
    rest: &'a [u8],
) -> Result<(Text, &'a [u8]), ParseError>
    ensures reads { Gives (λ x. x.0) (λ x. x.1.now) result (word limit rest.now) }
    ensures shorter { IfOk result (λ x. length x.1.now < length rest.now) }
{
    let mut bytes = Vec::new(alloc);
    let mut after = rest;
    let mut room = limit;
    while let Some((c, more)) = after.split_first() {
        if !is_key_byte(*c) {
            break;
        }
        if room == 0 {
            return Err(ParseError::At(Fault::KeyTooLong, after.len()));
        }
        room -= 1;
        bytes.push(*c)?;
        after = more;
    }
    if bytes.is_empty() {
        return Err(ParseError::At(Fault::Unexpected, after.len()));
    }
    Ok((Text::from_vec(bytes)?, after))
}

pub fn begins(byte: u8, rest: &[u8]) -> bool
    ensures { result ≡ begins_with byte rest.now }
{
    match rest.split_first() {
        Some((c, _)) => *c == byte,
        None => false,
    }
}
