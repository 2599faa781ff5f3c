// The station AIR and the weight AIR.
#![tactic(auto)]

pub mod station;
pub mod weight;
