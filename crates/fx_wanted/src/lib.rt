//! What the definitions make of the resources, computed whole: the labels of items, the active policies, the view that a node wants,
//! and the next message from one view towards another.
#![tactic(auto)]

pub use labels::{applies, effective_labels, is_active};
pub use next::next_message;
pub use pending_key::{PendingKey, pending_key_of, take_at};
pub use view::view_of;

mod labels;
mod next;
mod pending_key;
mod policies;
mod sets;
mod view;
