//! Who leads each round.
// Roster and beacon are two parameters: each is asked alone elsewhere, and a struct of both would be built and unpacked by every
// caller.
ghost use Rattle.std.specs.Prelude.{◌≡◌};
ghost use Rattle.drawing.specs.Leaders.{leader_answer, honest_leads, honest_led};

use orders::{Beacon, seats_by_rank};
use roster::roster::Roster;

/// The seat that leads a round; None where the beacon does not cover it.
pub fn leader<B: Beacon>(beacon: &B, round: u16) -> Option<u8>
    ensures { result ≡ leader_answer (B.ranking beacon.now) round }
{
    let [leader, ..] = seats_by_rank(beacon, round)?;
    Some(leader)
}

/// Whether an honest seat of the roster leads a round; false where the beacon does not cover it.
pub fn honest_leads<B: Beacon>(roster: &Roster, beacon: &B, round: u16) -> bool
    ensures { result ≡ honest_leads roster.now.n roster.now.marks (B.ranking beacon.now) round }
{
    leader(beacon, round).is_some_and(|seat| roster.is_honest(seat))
}

/// How many of the rounds from 1 to `rounds` an honest seat leads.
pub fn honest_rounds<B: Beacon>(roster: &Roster, beacon: &B, rounds: u16) -> u16
    ensures { result ≡ honest_led roster.now.n roster.now.marks (B.ranking beacon.now) rounds }
{
    (1..=rounds)
        .filter(|&round| honest_leads(roster, beacon, round))
        .count() as u16
}
