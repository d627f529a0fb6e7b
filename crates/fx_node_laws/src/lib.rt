//! What the relations of the nodes come to together: from inputs that are those of the resources they make the view of the
//! resources.
#![tactic(auto)]

pub mod laws;
