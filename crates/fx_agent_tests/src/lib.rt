//! The tests of `fx_agent`: updates and pulls, with each write of a flush failing once, and memory that runs out; and
//! how many tests of selectors updates make.
#![tactic(auto)]

#[cfg(test)]
mod bench;
#[cfg(test)]
mod runs;
#[cfg(test)]
mod tests;
#[cfg(test)]
mod ticks;
#[cfg(test)]
mod whole;
