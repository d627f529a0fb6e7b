//! What the label index looks up: texts by what their selectors need, items by labels and by parents, and texts by the items on
//! which they hold.
#![tactic(auto)]

pub use by_label::ItemsByLabel;
pub use by_need::TextsByNeed;
pub use item_rows::ItemRows;
pub use item_sets::set_item;
pub use item_texts::{change_row, hold_text};

mod by_label;
mod by_need;
mod item_rows;
mod item_sets;
mod item_texts;
mod text_rows;
