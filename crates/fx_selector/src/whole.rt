//! A whole text.
ghost use Rattle.std.specs.Prelude.{◌≡◌, ◌<◌, ◌≤◌, ℕ, [], length};
ghost use Rattle.fx_selector.specs.Reader.{parsed};
ghost use Rattle.fx_selector.specs.Nodes.{tree};
ghost use Rattle.fx_selector.specs.Gives.{Gives};
ghost use Rattle.fx_selector.specs.Parsing.{Parses, fault_at};

use crate::fault::{Fault, ParseError, SelectorFault};
use crate::grammar::or_at;
use crate::node::Node;
use crate::tokens::past_blanks;
use std::alloc::Global;

/// The most bytes of a key.
const KEY_LIMIT: usize = 512;

/// The most `!` and grouping `(` that are open around one place.
const DEPTH_LIMIT: usize = 64;

/// The tree of a text that is not too long, or its fault.
pub fn parse(alloc: Global, text: &[u8]) -> Result<Node, SelectorFault>
    requires { length text.now ≤ 65536 }
    ensures { Parses text.now result }
{
    match whole_of(alloc, KEY_LIMIT, DEPTH_LIMIT, text) {
        Ok(node) => Ok(node),
        Err(ParseError::Memory) => Err(SelectorFault::Memory),
        Err(ParseError::At(fault, left)) => Err(placed(fault, text.len() - left)),
    }
}

fn placed(fault: Fault, place: usize) -> SelectorFault
    requires { place ≤ 65536 }
    ensures { result ≡ fault_at fault place }
{
    let at = place as u32;
    match fault {
        Fault::Unexpected => SelectorFault::Unexpected { at },
        Fault::TooDeep => SelectorFault::TooDeep { at },
        Fault::KeyTooLong => SelectorFault::KeyTooLong { at },
    }
}

fn whole_of(alloc: Global, limit: usize, depth: usize, text: &[u8]) -> Result<Node, ParseError>
    ensures { (n : ℕ) → length text.now < n → Gives tree (λ _. []) result (parsed limit n depth text.now) }
{
    let start = past_blanks(text);
    if start.is_empty() {
        return Ok(Node::All);
    }
    let (node, rest) = or_at(alloc, limit, depth, start)?;
    if rest.is_empty() {
        Ok(node)
    } else {
        Err(ParseError::At(Fault::Unexpected, rest.len()))
    }
}
