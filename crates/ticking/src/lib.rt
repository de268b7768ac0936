//! The tick of a bench: the clock moves on, and the waits that are due end.
#![tactic(auto)]

pub mod clock;
mod due;
mod heads;
mod waits;
