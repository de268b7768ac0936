//! Changing a row of the tables, and how a seat's row moves through its rounds.
#![tactic(auto)]

pub mod events;
pub mod phases;
pub mod writes;
