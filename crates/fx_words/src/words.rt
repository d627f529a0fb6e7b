//! From words to what they ask for.
ghost use Rattle.std.specs.Prelude.{◌≡◌, IfOk, IfSome, is_some, nat_lt, option_map};
ghost use Rattle.std.specs.List.{list_all};
ghost use Rattle.fx_words.specs.Words.{asked_of, asked_with, is_node_name, soak_of, soak_with};
ghost use Rattle.fx_words.specs.Splitting.{are_plain, is_plain, texts_of, given_by};

use crate::numbers::number;
use crate::splitting::split;
use clap::ArgMatches;
use fx_base::{Memory, Text};
use fx_fields::is_name;
use std::alloc::Global;

// The most lines of a soak run.
const MOST_LINES: u64 = 1_000_000;

/// A run on lines that are drawn.
#[derive(Clone, Copy, Debug, PartialEq, Eq)]
pub struct Soak {
    pub seed: u64,
    pub count: u64,
}

/// The node's name, and the soak run, where one is asked for in the place of standard input.
#[derive(Debug, Drop)]
pub struct Asked {
    pub node: Text,
    pub soak: Option<Soak>,
}

/// What the words after the program's name ask for, or nothing where they aren't in the grammar.
///
/// They are, in any order, `--node NAME`, and both or neither of `--soak SEED` and `--count N`, each at most once, and each in two
/// words or in one, as `--node=NAME`. NAME has 1 to 253 bytes of `[A-Za-z0-9_.]` and, behind the first, `-`. SEED and N are decimal
/// numbers, SEED below 2^64 and N at most 1,000,000.
pub fn read_words(alloc: Global, words: &[Text]) -> Result<Option<Asked>, Memory>
    ensures { IfOk result (λ asked. asked ≡ asked_of words.now) }
{
    let Some(texts) = plain_texts(alloc, words)? else {
        return Ok(None);
    };
    let Some(matches) = split(alloc, texts.as_slice())? else {
        return Ok(None);
    };
    asked_by(alloc, &matches)
}

fn plain_texts<'a>(alloc: Global, words: &'a [Text]) -> Result<Option<Vec<&'a str>>, Memory>
    ensures plain { IfOk result (λ found. is_some found ≡ are_plain words.now) }
    ensures texts { IfOk result (λ found. IfSome found (λ texts. texts_of texts.items ≡ words.now)) }
{
    let mut texts = Vec::new(alloc);
    for word in words {
        let Some(text) = plain_text(word.bytes()) else {
            return Ok(None);
        };
        texts.push(text)?;
    }
    Ok(Some(texts))
}

fn plain_text(word: &[u8]) -> Option<&str>
    ensures plain { is_some result ≡ is_plain word.now }
    ensures text { IfSome result (λ text. text.now ≡ word.now) }
{
    if !is_plain(word) {
        return None;
    }
    str::from_utf8(word).ok()
}

// `clap` takes texts alone, `-` as a value, and `--` as the end of the options.
fn is_plain(word: &[u8]) -> bool
    ensures { result ≡ is_plain word.now }
{
    is_ascii(word) && word != b"-".as_slice() && word != b"--".as_slice()
}

fn is_ascii(word: &[u8]) -> bool
    ensures { result ≡ list_all (λ b. nat_lt b 128) word.now }
{
    word.iter().all(|b| *b < 128)
}

fn asked_by(alloc: Global, matches: &ArgMatches<'_>) -> Result<Option<Asked>, Memory>
    ensures { IfOk result (λ asked. asked ≡ asked_with (given_by matches.now)) }
{
    let Some(node) = matches.get_str("node") else {
        return Ok(None);
    };
    if !is_node_name(node.as_bytes()) {
        return Ok(None);
    }
    let Some(soak) = soak_with(matches.get_str("soak"), matches.get_str("count")) else {
        return Ok(None);
    };
    let node = Text::new(alloc, node.as_bytes())?;
    Ok(Some(Asked { node, soak }))
}

/// Whether it is a node's name: a name whose first byte isn't `-`.
pub fn is_node_name(text: &[u8]) -> bool
    ensures { result ≡ is_node_name text.now }
{
    is_name(text) && text[0] != b'-'
}

// A seed and a count are given both or neither.
fn soak_with(seed: Option<&str>, count: Option<&str>) -> Option<Option<Soak>>
    ensures { result ≡ soak_with (option_map (λ s. s.now) seed.entry) (option_map (λ s. s.now) count.entry) }
{
    match (seed, count) {
        (None, None) => Some(None),
        (Some(seed), Some(count)) => Some(Some(soak_of(seed, count)?)),
        _ => None,
    }
}

fn soak_of(seed: &str, count: &str) -> Option<Soak>
    ensures { result ≡ soak_of seed.now count.now }
{
    let seed = number(seed, u64::MAX)?;
    let count = number(count, MOST_LINES)?;
    Some(Soak { seed, count })
}
