// Worked examples of the library: theorems, and tests that are run.
#![tactic(auto)]

pub mod domains;
mod fields;
mod lists;
#[cfg(test)]
mod told;
mod worked_airs;
mod worked_transcript;
