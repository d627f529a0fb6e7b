//! The tests of `fx_base`, `fx_sharing` and `fx_text_sets`: texts, lists, maps, sets and sinks, and the order of names that the
//! kernel knows.
#![tactic(auto)]

#[cfg(test)]
mod kernel_names;
#[cfg(test)]
mod memory;
#[cfg(test)]
mod sinks;
#[cfg(test)]
mod text_sets;
#[cfg(test)]
mod text_table;
#[cfg(test)]
mod texts;
