//! Drawing the rounds of a roster: who leads each round, and whether that seat is honest.
#![tactic(auto)]

pub mod fault;
pub mod leaders;
pub mod report;
pub mod seating;
mod words;
