//! A roster from the list of its Byzantine seats.
ghost use Rattle.std.specs.Prelude.{◌≡◌, Ok, Err, MatchResult};
ghost use Rattle.drawing.specs.Seating.{seated};

use roster::fault::RosterFault;
use roster::roster::Roster;

/// A roster of n seats of which these are Byzantine, marked in this order; the first refusal ends it.
pub fn seat_all(n: u8, byzantine: &[u8]) -> Result<Roster, RosterFault>
    ensures { MatchResult result (λ t. (seated n byzantine.now ≡ Ok t.marks) × (t.n ≡ n)) (λ e. seated n byzantine.now ≡ Err e) }
{
    let mut roster = Roster::start(n)?;
    for &seat in byzantine {
        roster.mark(seat)?;
    }
    Ok(roster)
}
