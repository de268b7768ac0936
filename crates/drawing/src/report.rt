//! The text of a drawing.
ghost use Rattle.std.specs.Prelude.{◌≡◌, true, ◌++◌, OnOk, IfOk, IsOk, string_bytes, MatchResult};
ghost use Rattle.orders.specs.Ranking.{covers};
ghost use Rattle.drawing.specs.Leaders.{beacon_fits};
ghost use Rattle.drawing.specs.Report.{roster_line, round_line, honest_line, report_text, NoReport, numbered_line};

use crate::fault::DrawFault;
use crate::leaders::honest_rounds;
use crate::words::{seat_words, side_word};
use anyhow::anyhow;
use numbers::{majority, most_byzantine};
use orders::{Beacon, seats_by_rank};
use refusals::Refusal;
use roster::roster::Roster;
use std::alloc::{AllocError, Global};
use std::io::Print;

// The roster in a line.
fn write_roster(out: &mut String, roster: &Roster) -> Result<(), AllocError>
    ensures { OnOk result (string_bytes out.new ≡ string_bytes out.old ++ roster_line roster.now.n roster.now.marks) }
{
    let n = roster.seat_count();
    let byzantine = roster.byzantine_count();
    let most = most_byzantine(n);
    let quorum = majority(n);
    writeln!(
        out,
        "seats {n}, Byzantine {byzantine} of at most {most}, majority {quorum}"
    )
}

// A round that the beacon covers, in a line.
fn write_round<B: Beacon>(
    out: &mut String,
    roster: &Roster,
    beacon: &B,
    round: u16,
) -> Result<(), AllocError>
    requires { covers (B.ranking beacon.now) round ≡ true }
    ensures { OnOk result (string_bytes out.new ≡ string_bytes out.old ++ round_line roster.now.n roster.now.marks (B.ranking beacon.now) round) }
{
    let n = beacon.seat_count();
    let Some(seats) = seats_by_rank(beacon, round) else {
        unreachable()
    };
    let leader = seats[0];
    let side = side_word(roster.is_honest(leader));
    write!(out, "round {round} leader {leader} {side} order")?;
    seat_words(out, &seats[0..n as usize])?;
    out.push_str("\n")
}

// How many of the rounds an honest seat leads, in a line.
fn write_honest(out: &mut String, led: u16, rounds: u16) -> Result<(), AllocError>
    ensures { OnOk result (string_bytes out.new ≡ string_bytes out.old ++ honest_line led rounds) }
{
    writeln!(out, "rounds {rounds}, led by honest seats {led}")
}

/// The drawing of the rounds from 1 to `rounds`: the roster, a line for each round, and how many an honest seat leads.
pub fn report<B: Beacon>(
    alloc: Global,
    roster: &Roster,
    beacon: &B,
    rounds: u16,
) -> Result<String, DrawFault>
    ensures { MatchResult result (λ s. (beacon_fits roster.now.n (B.ranking beacon.now) rounds ≡ true) × (string_bytes s ≡ report_text roster.now.n roster.now.marks (B.ranking beacon.now) rounds)) (λ e. NoReport roster.now.n (B.ranking beacon.now) rounds e) }
{
    if rounds == 0 || rounds > beacon.last_round() || beacon.seat_count() != roster.seat_count() {
        return Err(DrawFault::Rounds);
    }
    let mut out = String::new(alloc);
    write_roster(&mut out, roster)?;
    for round in 1..=rounds {
        write_round(&mut out, roster, beacon, round)?;
    }
    write_honest(&mut out, honest_rounds(roster, beacon, rounds), rounds)?;
    Ok(out)
}

/// A numbered sentence in a line.
pub fn numbered_line(alloc: Global, number: u8, sentence: &str) -> Result<String, AllocError>
    ensures { IfOk result (λ s. string_bytes s ≡ numbered_line number sentence.now) }
{
    format!(in alloc; "refused {number}: {sentence}\n")
}

/// A refusal as it is printed: its number and a plain sentence.
pub fn refusal_line<F: Refusal>(alloc: Global, fault: F) -> Result<String, AllocError>
    ensures { IfOk result (λ s. string_bytes s ≡ numbered_line (F.number fault) (F.sentence fault)) }
{
    numbered_line(alloc, fault.number(), fault.sentence())
}

/// Prints what a program was asked for. Where that is refused it prints the refusal, and says in an error what there is not.
pub fn print_or_refuse<P: Print, F: Refusal>(
    out: &P,
    alloc: Global,
    asked: Result<String, F>,
    nothing: &'static str,
) -> anyhow::Result<()>
    ensures { OnOk result (IsOk asked) }
{
    match asked {
        Ok(text) => Ok(out.print(text)?),
        Err(fault) => {
            out.print(refusal_line(alloc, fault)?)?;
            Err(anyhow!(nothing))
        }
    }
}
