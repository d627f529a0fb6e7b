//! The tests of `fx_graph`: the messages for stored lists of updates make the view of the resources, computed whole.
#![tactic(auto)]

#[cfg(test)]
mod bench;
#[cfg(test)]
mod lists;
#[cfg(test)]
mod tests;
