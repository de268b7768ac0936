//! A roster that was not opened.
use roster::roster::Roster;
use rules::fault::BenchFault;

/// The roster, as it was, and why it was not opened.
#[derive(Drop)]
pub struct Unopened {
    pub roster: Roster,
    pub fault: BenchFault,
}
