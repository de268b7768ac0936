//! A timetable as text.
ghost use Rattle.std.specs.Prelude.{◌≡◌, ◌≤◌, ◌++◌, None, string_bytes, MatchResult, count_ones};
ghost use Rattle.timetable.specs.Promises.{deadline_refusal};
ghost use Rattle.timetable.specs.Text.{round_line, timetable_lines, NoTimetable};
ghost use Rattle.refusals.specs.declared.TextFault.TheVariants.{Memory};

use crate::fault::TimetableFault;
use crate::{Deadlines, deadlines_of};
use records::Record;
use roster::roster::Roster;
use std::alloc::Global;

// A round of a bench in a line.
fn write_round<R: Record>(
    out: &mut String,
    roster: &Roster,
    delay: u16,
    round: u16,
) -> Result<(), TimetableFault>
    requires { deadline_refusal delay round ≡ None }
    ensures { MatchResult result (λ _. string_bytes out.new ≡ string_bytes out.old ++ round_line (count_ones roster.now.marks) delay round) (λ e. e ≡ Memory) }
{
    let Deadlines {
        over_after,
        final_by,
    } = deadlines_of::<R>(roster, delay, round)?;
    writeln!(
        out,
        "round {round} over after {over_after} final by {final_by}"
    )?;
    Ok(())
}

/// The deadlines of the rounds from 1 to `rounds`, a line each: the last tick at which an honest seat can be in the round, and
/// the tick from which an honest leader's block of it is final everywhere.
pub fn timetable<R: Record>(
    alloc: Global,
    roster: &Roster,
    delay: u16,
    rounds: u16,
) -> Result<String, TimetableFault>
    ensures { MatchResult result (λ s. (deadline_refusal delay rounds ≡ None) × (string_bytes s ≡ timetable_lines (count_ones roster.now.marks) delay rounds)) (λ e. NoTimetable delay rounds e) }
{
    deadlines_of::<R>(roster, delay, rounds)?;
    let mut out = String::new(alloc);
    for round in 1..=rounds {
        write_round::<R>(&mut out, roster, delay, round)?;
    }
    Ok(out)
}
