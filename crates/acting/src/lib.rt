//! The calls of a bench on one seat: offers, deliveries, and what Byzantine seats do.
#![tactic(auto)]

pub mod calls;
mod effects;
