//! The lower half of the graph: the rule scanner, the policy resolver and the members of sets, each brought up to date over the
//! sequencer, of which it tells its part alone.
//!
//! - **Inputs**: what the active rules told, with what may have changed of it (`scan`, `resolve`); the changes of the label
//!   index's pairs (`supply_matches`); the sets that rules use, with what they were before (`supply_uses`); and of the resources
//!   the tiers, the endpoints with their interfaces, and the items that give members to sets (`put_tier`, `put_endpoint`,
//!   `put_item`, and the calls that remove these).
//! - **Tells** the sequencer the wanted policies, profiles, endpoints and sets.
//! - **Answers** `scan` with what the sets of which something was told were before.
//! - **Definition**: each node's own (`IsScanned`, `IsResolved`, `AreMembers`), over its new inputs. In Felix these nodes are the
//!   `RuleScanner`, the `PolicyResolver` and the selector and named port index; the sequencer is the `EventSequencer`.
#![tactic(auto)]

pub use bringing::{resolve, scan, supply_matches, supply_uses};
pub use parts::{Beside, SetPart, ViewPart};
pub use passing::{put_endpoint, put_item, put_tier, remove_endpoint, remove_item, remove_tier};
pub use scan_log::{ScanLog, ScanStart, Scanned};

mod bringing;
mod parts;
mod passing;
mod resolving;
mod scan_log;
mod scanning;
mod supplying;
