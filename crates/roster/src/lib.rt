//! The roster: who sits at a bench, and which of the seats are Byzantine.
#![tactic(auto)]

pub mod fault;
pub mod roster;
