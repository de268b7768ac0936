//! Why a bench refuses a call: each check reads the tables, and answers the first refusal that applies.
#![tactic(auto)]

pub mod byzantine;
pub mod messages;
pub mod seats;
