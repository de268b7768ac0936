//! Whether a bench can be opened.
ghost use Rattle.std.specs.Prelude.{◌≡◌, true, Ok, Err, MatchResult};
ghost use Rattle.rules.specs.Tables.{fits as fits_of};
ghost use Rattle.rules.specs.Opening.{open_answer};
ghost use Rattle.tables.specs.View.{rows_of, setup_of};
ghost use Rattle.terms.specs.Numbers.{bench_of_terms};
ghost use Rattle.opening.specs.Plans.{planned, plan_answer};

use crate::plan::Plan;
use numbers::limits::{MOST_DELAY, MOST_EDITIONS, MOST_ROUNDS};
use numbers::majority;
use orders::Beacon;
use records::Record;
use roster::roster::Roster;
use rules::fault::BenchFault;
use tables::lent::Tables;
use terms::terms::Terms;

// The refusals of an opening that do not look at the tables.
fn check_plan<B: Beacon>(roster: &Roster, plan: Plan, beacon: &B) -> Result<(), BenchFault>
    ensures { result ≡ plan_answer (planned roster.now plan) (B.ranking beacon.now) }
{
    if !(1..=MOST_DELAY).contains(&plan.delay) {
        return Err(BenchFault::DelayOutOfRange);
    }
    let serves = beacon.seat_count() == roster.seat_count() && plan.rounds <= beacon.last_round();
    if !(1..=MOST_ROUNDS).contains(&plan.rounds) || !serves {
        return Err(BenchFault::RoundOutOfRange);
    }
    if !(1..=MOST_EDITIONS).contains(&plan.editions) {
        return Err(BenchFault::EditionOutOfRange);
    }
    Ok(())
}

// The numbers of the bench that a roster, a plan and a beacon make on these tables, with its clock at 0; a majority of
// the seats notarises a block. Or why it cannot be opened.
#[tactic(auto, using(crate::proofs::Refusals::open_is))]
pub(crate) fn check_opening<R: Record, B: Beacon>(
    roster: &Roster,
    plan: Plan,
    beacon: &B,
    t: &Tables<R>,
) -> Result<Terms, BenchFault>
    ensures { MatchResult result
        (λ b. (open_answer (planned roster.now plan) (B.ranking beacon.now) (rows_of t.now) ≡ Ok tt)
        × (bench_of_terms b ≡ planned roster.now plan)
        × (b.clock ≡ 0)
        × (fits_of (setup_of b t.now) (rows_of t.now) ≡ true))
        (λ f. open_answer (planned roster.now plan) (B.ranking beacon.now) (rows_of t.now) ≡ Err f) }
{
    check_plan(roster, plan, beacon)?;
    let n = roster.seat_count();
    let terms = Terms {
        n,
        marks: roster.byzantine_seats().bits(),
        delay: plan.delay,
        rounds: plan.rounds,
        editions: plan.editions,
        quorum: majority(n),
        clock: 0,
    };
    if !t.fits(terms) {
        return Err(BenchFault::TableLength);
    }
    Ok(terms)
}
