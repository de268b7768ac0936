//! The tables that a caller lends to a bench: their lengths, and reading their rows.
#![tactic(auto)]

pub mod lengths;
pub mod lent;
pub mod ranks;
pub mod reads;
pub mod rows;
