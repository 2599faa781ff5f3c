// Fields: what one is to code, a field over a field, roots of unity, and the value of a polynomial.
#![tactic(auto)]

pub mod extension;
pub mod horner;
pub mod roots;
pub mod traits;
