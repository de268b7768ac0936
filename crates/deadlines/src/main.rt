//! deadlines: by which tick each round of a bench must be over, and an honest leader's posting final.
#![tactic(auto)]

ghost use Rattle.std.specs.Prelude.{◌≡◌, IfOk, vec_len};

use anyhow::bail;
use arguments::{clamped, number};
use drawing::report::print_or_refuse;
use drawing::seating::seat_all;
use records::heat::Heat;
use rules::fault::BenchFault;
use std::alloc::{AllocError, Global};
use std::env;
use timetable::fault::TimetableFault;
use timetable::text::timetable;

const USAGE: &str = "\
deadlines: by which tick each round must be over

usage: deadlines SEATS BYZANTINE DELAY ROUNDS

SEATS      how many seats there are, 1 to 16
BYZANTINE  how many of them are Byzantine: fewer than half
DELAY      within how many ticks a message arrives, 1 to 1000
ROUNDS     how many rounds there are, 1 to 256

A line for each round: the last tick at which an honest seat can be in
the round, and the tick from which an honest leader's block of it is
final at every honest seat (unless the round is the last). Both are
proved for every run of calls.

example: deadlines 4 1 2 6
";

// The first seats, this many.
fn first_seats(alloc: Global, count: u8) -> Result<Vec<u8>, AllocError>
    ensures { IfOk result (λ v. vec_len v ≡ count) }
{
    (0..count).collect(alloc)
}

// The timetable that was asked for. The records make no difference: heat stands for every kind.
fn asked(
    alloc: Global,
    n: u8,
    byzantine: &[u8],
    delay: u16,
    rounds: u16,
) -> Result<String, TimetableFault> {
    let roster = seat_all(n, byzantine).map_err(BenchFault::from)?;
    timetable::<Heat>(alloc, &roster, delay, rounds)
}

fn main(rt: HostRuntime) -> anyhow::Result<()> {
    let counts: Option<Vec<u64>> = env::args(&rt)?
        .skip(1)
        .map(|word| number(word.as_str()))
        .collect(rt.alloc())?;
    let Some(counts) = counts else {
        rt.print(USAGE)?;
        bail!("arguments are numbers");
    };
    let &[n, byzantine, delay, rounds] = counts.as_slice() else {
        rt.print(USAGE)?;
        return Ok(());
    };
    let seats = first_seats(rt.alloc(), clamped(byzantine))?;
    let text = asked(
        rt.alloc(),
        clamped(n),
        seats.as_slice(),
        clamped(delay),
        clamped(rounds),
    );
    print_or_refuse(&rt, rt.alloc(), text, "there is no timetable")
}
