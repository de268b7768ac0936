//! Opening a bench: whether it can be opened, and the tables of a new bench.
#![tactic(auto)]

pub mod begin;
mod check;
mod fills;
pub mod plan;
mod start;
