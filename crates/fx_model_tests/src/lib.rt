//! The tests of the model: `fx_model` and `fx_wanted`.
#![tactic(auto)]

#[cfg(test)]
mod model;
#[cfg(test)]
mod model_parts;
