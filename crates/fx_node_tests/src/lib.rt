//! The tests of the nodes, each over a sink of `fx_record`, all through one bench: each call of each node once, and
//! what no clause says, as how often a sink is told.
#![tactic(auto)]

#[cfg(test)]
mod bench;
#[cfg(test)]
mod benches;
#[cfg(test)]
mod rows;
#[cfg(test)]
mod tests;
