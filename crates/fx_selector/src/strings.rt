//! Strings, words of the language and sets.
ghost use Rattle.std.specs.Prelude.{◌≡◌, ◌<◌, ◌≤◌, ◌+◌, length, IfOk, map, ℕ};
ghost use Rattle.fx_selector.specs.Phrase.{is_quote, is_text};
ghost use Rattle.fx_selector.specs.Reading.{closed, keyword};
ghost use Rattle.fx_selector.specs.Reader.{string, set};
ghost use Rattle.fx_selector.specs.Gives.{Gives};

use crate::fault::{Fault, ParseError};
use crate::tokens::{is_key_byte, mark_of, past_blanks};
use fx_base::Text;
use std::alloc::Global;

#[tactic(auto, unfolding(crate::specs::Phrase::is_text))]
pub fn is_text_byte(quote: u8, c: u8) -> bool
    ensures { result ≡ is_text quote c }
{
    b' ' <= c && c != 0x7f && c != quote
}

/// The rest of a string that the quote closes.
fn closed_of<'a>(alloc: Global, quote: u8, rest: &'a [u8]) -> Result<(Text, &'a [u8]), ParseError>
    ensures reads { Gives (λ x. x.0) (λ x. x.1.now) result (closed quote rest.now) }
    ensures shorter { IfOk result (λ x. length x.1.now < length rest.now) }
{
    let mut bytes = Vec::new(alloc);
    let mut after = rest;
    while let Some((c, more)) = after.split_first() {
        if *c == quote {
            return Ok((Text::from_vec(bytes)?, past_blanks(more)));
        }
        if !is_text_byte(quote, *c) {
            break;
        }
        bytes.push(*c)?;
        after = more;
    }
    Err(ParseError::At(Fault::Unexpected, after.len()))
}

#[tactic(auto, unfolding(crate::specs::Phrase::is_quote))]
pub fn string_of<'a>(alloc: Global, rest: &'a [u8]) -> Result<(Text, &'a [u8]), ParseError>
    ensures reads { Gives (λ x. x.0) (λ x. x.1.now) result (string rest.now) }
    ensures shorter { IfOk result (λ x. length x.1.now < length rest.now) }
{
    match rest.split_first() {
        Some((quote, more)) if *quote == b'"' || *quote == b'\'' => closed_of(alloc, *quote, more),
        _ => Err(ParseError::At(Fault::Unexpected, rest.len())),
    }
}

pub fn keyword_of<'a>(bytes: &[u8], rest: &'a [u8]) -> Result<&'a [u8], ParseError>
    ensures reads { Gives (λ _. tt) (λ r. r.now) result (keyword bytes.now rest.now) }
    ensures shorter { IfOk result (λ r. length r.now ≤ length rest.now) }
{
    let mut left = bytes;
    let mut after = rest;
    while let Some((b, others)) = left.split_first() {
        match after.split_first() {
            Some((c, more)) if *c == *b => {
                left = others;
                after = more;
            }
            _ => return Err(ParseError::At(Fault::Unexpected, after.len())),
        }
    }
    match after.split_first() {
        Some((c, _)) if is_key_byte(*c) => Err(ParseError::At(Fault::Unexpected, after.len())),
        _ => Ok(after),
    }
}
