//! The command of a line, for a program of any commands.
ghost use Rattle.std.specs.Prelude.{◌≡◌, IfOk, Ok, Result};
ghost use Rattle.serde_json.specs.Data.{Data};
ghost use Rattle.serde_json.specs.View.{view};
ghost use Rattle.fx_fields.specs.declared.refusal.Refusal.{Refusal};
ghost use Rattle.fx_fields.specs.Refusals.{Refuses};
ghost use Rattle.fx_lines.specs.Commands.{command_by, is_true, shaped};

use crate::commands::read_line;
use fx_base::Memory;
use fx_fields::Refusal;
use serde_json::Value;
use std::alloc::Global;

/// What a line of a program may ask for.
pub trait LineCommand: Sized {
    /// What a blank line asks for.
    ghost nothing: { Self };

    /// What an object with one member asks for, by the member's name, or why the line is refused.
    ghost by_name: { Data → Result Self Refusal };

    /// What holds of each command that is read.
    ghost IsRead: { Self → Type 0 };

    fn blank() -> Self
        ensures nothing { result ≡ nothing }
        ensures read { IsRead result };

    /// Reads an object with one member.
    fn read_member(alloc: Global, value: &Value) -> Result<Self, Refusal>
        ensures answer { Refuses (by_name (view value.now)) result }
        ensures read { IfOk result IsRead };
}

/// The command of a line, or its refusal. Want of memory is neither.
#[tactic(auto, using(crate::proofs::Asking::refused_as_defined))]
pub fn read_said<C: LineCommand + Drop>(
    alloc: Global,
    line: &[u8],
) -> Result<Result<C, Refusal>, Memory>
    ensures answer { IfOk result (λ said. said ≡ command_by C.nothing C.by_name line.now) }
    ensures read { IfOk result (λ said. IfOk said C.IsRead) }
{
    match read_as::<C>(alloc, line) {
        Ok(command) => Ok(Ok(command)),
        Err(refusal) => {
            if refusal.is_memory() {
                return Err(Memory);
            }
            Ok(Err(refusal))
        }
    }
}

/// The same, with want of memory as a refusal.
pub fn read_as<C: LineCommand>(alloc: Global, line: &[u8]) -> Result<C, Refusal>
    ensures answer { Refuses (command_by C.nothing C.by_name line.now) result }
    ensures read { IfOk result C.IsRead }
{
    match read_line(alloc, line)? {
        Some(value) => C::read_member(alloc, &value),
        None => Ok(C::blank()),
    }
}

/// The command, where the member's value has its shape.
pub fn shaped<C: Drop>(right: bool, command: C) -> Result<C, Refusal>
    ensures { result ≡ shaped right (Ok command) }
{
    if right {
        Ok(command)
    } else {
        Err(Refusal::BadLine)
    }
}

/// Whether it is the JSON value `true`.
pub fn is_true(value: &Value) -> bool
    ensures { result ≡ is_true (view value.now) }
{
    value.as_bool().unwrap_or(false)
}
