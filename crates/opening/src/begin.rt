//! The whole of an opening.
ghost use Rattle.std.specs.Prelude.{◌≡◌, IfOk};
ghost use Rattle.rules.specs.Opening.{opening};
ghost use Rattle.tables.specs.View.{rows_of};
ghost use Rattle.terms.specs.Numbers.{bench_of_terms};
ghost use Rattle.opening.specs.Plans.{planned, bare};
ghost use Rattle.opening.specs.Stages.{SamePlaces};

use crate::check::check_opening;
use crate::plan::Plan;
use crate::start::fill_tables;
use orders::Beacon;
use records::Record;
use roster::roster::Roster;
use rules::fault::BenchFault;
use tables::lent::Tables;
use terms::terms::Terms;

/// Opens a bench on the tables that the caller lends: fills them, and gives the numbers of the bench, with its clock at 0.
/// A refusal leaves the tables as they were.
// Roster, plan and beacon are apart: only an opening takes them, and what follows it takes `Terms`.
pub fn open_tables<R: Record, B: Beacon>(
    roster: &Roster,
    plan: Plan,
    beacon: &B,
    t: &mut Tables<R>,
) -> Result<Terms, BenchFault>
    ensures is { record { answer = bare result; tables = rows_of t.new } ≡ opening (planned roster.now plan) (B.ranking beacon.now) R.Record.kind (rows_of t.old) }
    ensures terms { IfOk result (λ b. (bench_of_terms b ≡ planned roster.now plan) × (b.clock ≡ 0)) }
    ensures same { SamePlaces t.new t.old }
{
    let terms = check_opening(roster, plan, beacon, &*t)?;
    fill_tables(terms, beacon, t);
    Ok(terms)
}
