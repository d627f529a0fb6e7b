//! Runs a program in memory.
ghost use Rattle.std.specs.Prelude.{◌≡◌, false};
ghost use Rattle.fx_base.specs.MemSource.{source_state};

use felix_host::felix_host;
use felix_replay::{Status, felix_replay};
use felix_restore::felix_restore;
use felix_services::felix_services;
use fx_base::{MemSource, Memory, Text, TornSink};
use fx_names::{DigestFunction, DigestRule, Namer, PlainRule};
use fx_stdio::Sha256Digest;
use std::alloc::Global;

/// The words of a run on the node `n1`.
pub const NODE: &str = "--node n1";

/// The program whose code is run.
#[derive(Clone, Copy)]
pub enum Program {
    Replay,
    Restore,
    Host,
    Services,
}

impl Program {
    /// The program of this name.
    pub fn named(name: &str) -> Option<Program> {
        match name {
            "felix-replay" => Some(Program::Replay),
            "felix-restore" => Some(Program::Restore),
            "felix-host" => Some(Program::Host),
            "felix-services" => Some(Program::Services),
            _ => None,
        }
    }
}

/// The rule of the digests by which names are shortened.
#[derive(Clone, Copy)]
pub enum Rule {
    Sha256,
    /// Texts with one prefix have one digest.
    Plain,
}

/// What a source gives and a sink takes: so many bytes a read, and the read of this number fails, from 1; the put of this number
/// fails and keeps so many bytes of its own, and there is room for so many bytes in all.
#[derive(Clone, Copy)]
pub struct Faults {
    pub piece: u32,
    pub read: u64,
    pub put: u64,
    pub kept: u32,
    pub room: u32,
}

/// Nothing fails.
pub const NO_FAULTS: Faults = Faults {
    piece: 4096,
    read: 0,
    put: 0,
    kept: 0,
    room: 1_048_576,
};

/// A run but for its input.
#[derive(Clone, Copy)]
pub struct Setting<'a> {
    pub program: Program,
    pub rule: Rule,
    pub words: &'a str,
    pub faults: Faults,
}

/// The status of a run on these bytes, and what it wrote.
pub fn answered(
    alloc: Global,
    setting: &Setting<'_>,
    input: Vec<u8>,
) -> Result<(Status, Vec<u8>), Memory> {
    let program = setting.program;
    let faults = setting.faults;
    let failing = vec![in alloc; faults.read]?;
    let mut source = MemSource::new(input, faults.piece.max(1), failing);
    let mut sink = TornSink::new(alloc, faults.room, faults.put, faults.kept)?;
    let words = split(alloc, setting.words)?;
    let status = match setting.rule {
        Rule::Sha256 => {
            let namer = Namer::new(Sha256Digest);
            run(alloc, program, &words, &mut source, &mut sink, namer)
        }
        Rule::Plain => {
            let namer = Namer::new(PlainRule);
            run(alloc, program, &words, &mut source, &mut sink, namer)
        }
    };
    Ok((status, sink.held().to_vec(alloc)?))
}

fn run<R: DigestRule, F: DigestFunction<R> + Drop>(
    alloc: Global,
    program: Program,
    words: &[Text],
    source: &mut MemSource,
    sink: &mut TornSink,
    namer: Namer<R, F>,
) -> Status
    requires fresh { (source_state source.old).given ≡ 0 }
    requires unended { (source_state source.old).ended ≡ false }
{
    match program {
        Program::Replay => felix_replay(alloc, words, source, sink, namer),
        Program::Restore => felix_restore(alloc, words, source, sink, namer),
        Program::Host => felix_host(alloc, words, source, sink, namer),
        Program::Services => felix_services(alloc, words, source, sink, namer),
    }
}

// The words of a list, each but the first behind a blank.
fn split(alloc: Global, list: &str) -> Result<Vec<Text>, Memory> {
    let mut words = Vec::new(alloc);
    if !list.is_empty() {
        for word in list.split(' ') {
            words.push(Text::new(alloc, word.as_bytes())?)?;
        }
    }
    Ok(words)
}

/// The run that a program's name and its words ask for, under the rule by which texts with one prefix have one digest.
pub fn setting_of(command: &str) -> Option<Setting<'_>> {
    let (name, words) = command.split_once(' ').unwrap_or((command, ""));
    let program = Program::named(name)?;
    Some(Setting {
        program,
        rule: Rule::Plain,
        words,
        faults: NO_FAULTS,
    })
}

/// How a run ended.
pub fn name_of(status: Status) -> &'static str {
    match status {
        Status::Done => "Done",
        Status::Refused => "Refused",
        Status::Usage => "Usage",
        Status::ReadFault => "ReadFault",
        Status::WriteFault => "WriteFault",
        Status::Memory => "Memory",
        Status::InputTooLong => "InputTooLong",
    }
}
