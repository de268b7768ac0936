//! What a seat has of the blocks and signatures of a bench.
#![tactic(auto)]

pub mod messages;
pub mod notarised;
pub mod sent;
pub mod signatures;
pub mod taking;
