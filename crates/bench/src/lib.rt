//! A bench: a group of seats that keep one record, over tables that the caller lends.
//!
//! A roster is opened into a live bench, which takes offers, ticks, deliveries, plantings and signings. Closing uses it up and
//! gives a closed bench, of which seats' standings and final chains can be read and nothing else.
#![tactic(auto)]

pub mod calls;
pub mod closed;
pub mod live;
pub mod open;
pub mod read;
pub mod unopened;
