// Both ends driven over lists of requests.
#![tactic(auto)]

pub mod rehearse;
pub mod request;
mod run;
pub mod standing;
