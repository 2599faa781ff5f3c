// Domains: distinct points of a prime field in order, and what is read at points of a field above it.
#![tactic(auto)]

pub mod periodic;
pub mod powers;
pub mod products;
pub mod selectors;
pub mod split;
pub mod traits;
