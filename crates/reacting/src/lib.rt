//! How a seat reacts to what it has received: its votes, its proposal, and how it leaves a round.
#![tactic(auto)]

pub mod choice;
mod departure;
mod proposal;
pub mod reaction;
mod voter;
mod votes;
