//! How many operations there were.
ghost use Rattle.std.specs.Prelude.{◌≡◌, IfOk};
ghost use Rattle.fx_run.specs.Writing.{Writes};
ghost use Rattle.fx_leading.specs.Lines.{count_line};

use fx_base::{Memory, Sink, Text};
use fx_rows::push_decimal;
use fx_run::{RunFault, put_one};
use std::alloc::Global;

/// Writes a word and a number.
pub fn put_count<K: Sink>(
    alloc: Global,
    word: &[u8],
    count: u64,
    sink: &mut K,
) -> Result<(), RunFault>
    ensures writes { Writes (K.state sink.old) (K.state sink.new) (count_line word.now count) result }
{
    let line = count_text(alloc, word, count)?;
    put_one(&line, sink)
}

fn count_text(alloc: Global, word: &[u8], count: u64) -> Result<Text, Memory>
    ensures { IfOk result (λ text. text ≡ count_line word.now count) }
{
    let mut bytes = Vec::from_slice(alloc, word)?;
    bytes.extend_from_slice(b" ")?;
    push_decimal(&mut bytes, count)?;
    bytes.extend_from_slice(b"\n")?;
    Text::from_vec(bytes)
}
