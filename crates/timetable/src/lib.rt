//! By which tick a round must be over, and by which an honest leader's posting must be final everywhere.
#![tactic(auto)]

ghost use Rattle.std.specs.Prelude.{◌≡◌, ◌+◌, ◌*◌, ◌≤◌, Some, None, MatchResult, count_ones};
ghost use Rattle.timetable.specs.Promises.{deadline_refusal, RoundOverAfter, LeaderFinalBy};
ghost use Rattle.timetable.specs.Deadlines.{last_tick_of, final_at};

use numbers::limits::{MOST_DELAY, MOST_ROUNDS};
use records::Record;
use roster::roster::Roster;
use rules::fault::BenchFault;

pub mod fault;
pub mod text;

/// The deadlines of one round.
#[derive(Clone, Copy, PartialEq, Eq, Debug)]
pub struct Deadlines {
    /// The last tick at which an honest seat can be in the round.
    pub over_after: u32,
    /// The tick from which an honest leader's block of the round is final at every honest seat, unless the round is the last.
    pub final_by: u32,
}

// (f + 6) Δ ticks: the longest time in a round.
fn longest_stay(byzantine: u8, delay: u16) -> u32
    requires { (byzantine ≤ 16) × (delay ≤ 1000) }
    ensures { (result ≡ (byzantine + 6) * delay) × (result ≤ 22000) }
{
    (byzantine as u32 + 6) * delay as u32
}

/// The deadlines of a round, for every bench with this roster and delay, whatever its beacon, its record type and its calls.
// Roster, delay and round are three parameters: a struct of them would be built for each call and taken apart in it.
pub fn deadlines_of<R: Record>(
    roster: &Roster,
    delay: u16,
    round: u16,
) -> Result<Deadlines, BenchFault>
    ensures value { MatchResult result (λ d. (deadline_refusal delay round ≡ None) × (d.over_after ≡ last_tick_of (count_ones roster.now.marks) delay round) × (d.final_by ≡ final_at (count_ones roster.now.marks) delay round)) (λ e. deadline_refusal delay round ≡ Some e) }
    ensures over { RoundOverAfter R.Record.kind roster.now delay round (last_tick_of (count_ones roster.now.marks) delay round) }
    ensures leader_final { LeaderFinalBy R.Record.kind roster.now delay round (final_at (count_ones roster.now.marks) delay round) }
{
    if !(1..=MOST_DELAY).contains(&delay) {
        return Err(BenchFault::DelayOutOfRange);
    }
    if !(1..=MOST_ROUNDS).contains(&round) {
        return Err(BenchFault::RoundOutOfRange);
    }
    let stay = longest_stay(roster.byzantine_count(), delay);
    Ok(Deadlines {
        over_after: round as u32 * stay,
        final_by: (round as u32 + 1) * stay + 2 * delay as u32,
    })
}
