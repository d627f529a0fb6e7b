//! Options and their values, by `clap`.
ghost use Rattle.std.specs.Prelude.{◌≡◌, IfOk, true, false, option_map};
ghost use Rattle.clap.specs.Simple.{app_of};
ghost use Rattle.clap.specs.Walk.{rule_of};
ghost use Rattle.fx_words.specs.Words.{given_of};
ghost use Rattle.fx_words.specs.Splitting.{value_option, words_app, are_plain, texts_of, given_by};

use clap::error::ErrorKind;
use clap::{Arg, ArgAction, ArgMatches, Command};
use fx_base::Memory;
use std::alloc::{AllocError, Global};

fn value_option<'a>(alloc: Global, name: &'a str) -> Arg<'a>
    ensures rule { rule_of result ≡ value_option name.entry.now }
    ensures local { result.global ≡ false }
{
    Arg::new(alloc, name).long(name).action(ArgAction::Set)
}

// It has no help and no version of its own: the grammar has no such words.
fn command<'a>(alloc: Global) -> Result<Command<'a>, AllocError>
    ensures { IfOk result (λ c. app_of c ≡ words_app) }
{
    Command::new(alloc, "felix-replay")
        .no_binary_name(true)
        .disable_help_flag(true)
        .disable_version_flag(true)
        .arg(value_option(alloc, "node"))?
        .arg(value_option(alloc, "soak"))?
        .arg(value_option(alloc, "count"))
}

/// The options of the words, or nothing where the words aren't options with their values, each given once at most.
pub fn split<'a>(alloc: Global, words: &'a [&str]) -> Result<Option<ArgMatches<'a>>, Memory>
    requires plain { are_plain (texts_of words.now) ≡ true }
    ensures { IfOk result (λ found. option_map given_by found ≡ given_of (texts_of words.now)) }
{
    match command(alloc)?.try_get_matches_from(words) {
        Ok(matches) => Ok(Some(matches)),
        Err(error) if error.kind() == ErrorKind::OutOfMemory => Err(Memory),
        Err(_) => Ok(None),
    }
}
