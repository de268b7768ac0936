//! A closed bench.
use crate::live::Bench;

/// The state of a bench that was closed.
#[derive(Drop)]
pub struct Closed;

/// A bench that can only be read: no call lengthens its final chains.
pub type ClosedBench = Bench<Closed>;
