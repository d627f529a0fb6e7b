//! Services in rules: reads EndpointSlices and rules that name services, and makes of them the records that stand.
#![tactic(auto)]

pub use lowered::{Lowered, read_lowered};
pub use places::{PlaceLists, Places};
pub use slices::{is_slice, read_slice, read_slice_delete};

mod lowered;
mod lowering;
mod marks;
mod places;
mod services;
mod slice_fields;
mod slices;
