//! The frame of a program: from the words of a command line and the bytes of a source to the bytes of a sink and a
//! status.
//!
//! - A **task** is what words ask for. `run_task` reads the words, does it, and tells how it ended.
//! - A **program** is a task that answers each line of the source, and may write a text behind the last. `Lines` numbers
//!   its lines and notes whether one was refused; `run_program` is `run_task` of it.
//!
//! What is known of every run (its output, each of its ends and their causes) is a clause of `run_task`, proved once.
#![tactic(auto)]

pub use lines::{Lines, run_lines};
pub use program::Program;
pub use task::Task;
pub use tasking::run_task;
pub use top::run_program;

mod lines;
mod program;
mod task;
mod tasking;
mod top;
