//! Cuts a source into lines, and reads what each line says.
#![tactic(auto)]

pub use batches::batch_command;
pub use commands::{Command, read_command, read_line, update_command};
pub use line_command::{LineCommand, is_true, read_as, read_said, shaped};
pub use lines::{LineFault, LineReader};

mod batches;
mod commands;
mod line_command;
mod lines;
