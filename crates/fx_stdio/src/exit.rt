//! The exit status of each end of a run.
ghost use Rattle.std.specs.Prelude.{◌≡◌};
ghost use Rattle.fx_stdio.specs.ExitStatus.{exit_status};

use fx_run::Status;

/// What a program that ended so exits with.
pub fn exit_code(status: Status) -> u8
    ensures code { result ≡ exit_status status }
{
    match status {
        Status::Done => 0,
        Status::Refused => 1,
        Status::Usage => 2,
        Status::ReadFault => 3,
        Status::WriteFault => 4,
        Status::Memory => 5,
        Status::InputTooLong => 6,
    }
}
