//! The tests of `fx_reconcile`: which operations lead tables to others.
#![tactic(auto)]

#[cfg(test)]
mod tests;
