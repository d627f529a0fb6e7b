//! Lines of a restart: the commands that they ask for, what is known of the node's tables by then, and the texts of
//! refused lines.
#![tactic(auto)]

pub use command::RestoreCommand;
pub use finding::Finding;
pub use reading::said_of;
pub use refusal::{RestoreRefusal, refused_text};

mod command;
mod finding;
mod reading;
mod refusal;
