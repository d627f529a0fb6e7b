//! Replays lines whose rules may name services, from standard input to standard output.
#![tactic(auto)]

use felix_services::{Status, felix_services};
use fx_names::Namer;
use fx_stdio::{Sha256Digest, StdSink, StdSource, arguments, exit_code};
use std::process::ExitCode;

fn main(rt: HostRuntime) -> ExitCode {
    let Ok(words) = arguments(rt.alloc(), &rt) else {
        return ExitCode::from(exit_code(Status::Memory));
    };
    let mut source = StdSource::new(rt.stdin());
    let mut sink = StdSink::new(rt.stdout());
    let namer = Namer::new(Sha256Digest);
    let status = felix_services(rt.alloc(), &words, &mut source, &mut sink, namer);
    ExitCode::from(exit_code(status))
}
