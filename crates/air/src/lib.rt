// AIRs: what one declares and asserts, the verifier's folder, and the values of single constraints.
#![tactic(auto)]

pub mod builder;
pub mod folder;
pub mod opened;
pub mod picker;
