//! What is written: refusals, messages, tables and packets as text.
#![tactic(auto)]

pub use fx_rows::tables_text;
pub use messages::message_text;
pub use packets::{packet_texts, side_text, verdict_bytes};
pub use texts::{flushed_text, refusal_text, soak_text};

mod messages;
mod packets;
mod texts;
