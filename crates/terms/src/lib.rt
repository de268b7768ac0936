//! The numbers of a bench: seats, limits and clock, and the numbers of its blocks.
#![tactic(auto)]

pub mod numbering;
pub mod terms;
