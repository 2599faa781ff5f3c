// A bench list: one station number a line, read from text, and whether its numbers rise from row to row.
#![tactic(auto)]

pub mod breaks;
pub mod lines;
pub mod list;
