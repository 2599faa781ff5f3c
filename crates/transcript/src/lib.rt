// The transcript of a run: its shape, the seed, the challenges, and the two phases over a sponge.
#![tactic(auto)]

mod absorb;
pub mod challenge;
pub mod failure;
pub mod input;
pub mod phases;
pub mod role;
pub mod seed;
pub mod shape;
mod witness;
