//! What the words of a command line ask for.
ghost use Rattle.std.specs.Prelude.{◌≡◌, ◌⊎◌, ℕ, List, Option, IfOk, IsSome, OnErr};
ghost use Rattle.fx_words.specs.Words.{asked_of, node_of};

use crate::node::read_node;
use crate::words::{Asked, read_words};
use fx_base::{Memory, Text};
use std::alloc::Global;

/// What words may ask for, by a grammar.
pub trait Asking: Sized {
    /// What these words ask for, where they are in the grammar.
    ghost asked: { List (List ℕ) → Option Self };

    /// Whether memory may be wanting where they aren't.
    ghost ReadsByMemory: { Type 0 };

    /// Reads the words after the program's name.
    fn read(alloc: Global, words: &[Text]) -> Result<Option<Self>, Memory>
        ensures found { IfOk result (λ found. found ≡ asked words.now) }
        ensures wanting { OnErr result (IsSome (asked words.now) ⊎ ReadsByMemory) };
}

/// A node's name, by the words `--node` and the name, in the form that `read_words` tells.
impl Asking for Text {
    ghost asked = { node_of };

    ghost ReadsByMemory = { ⊥ };

    fn read(alloc: Global, words: &[Text]) -> Result<Option<Self>, Memory> {
        match read_node(words) {
            Some(node) => Ok(Some(node.clone()?)),
            None => Ok(None),
        }
    }
}

/// By the grammar that `read_words` tells.
impl Asking for Asked {
    ghost asked = { asked_of };

    ghost ReadsByMemory = { Unit {0} };

    fn read(alloc: Global, words: &[Text]) -> Result<Option<Self>, Memory> {
        read_words(alloc, words)
    }
}
