//! The clock moves on.
ghost use Rattle.std.specs.Prelude.{◌≡◌, cond, if◌then◌else◌, Ok, Err, nat_lt};
ghost use Rattle.rules.specs.declared.fault.BenchFault.TheVariants.{TableLength, MessageOverdue, ClockStopped};
ghost use Rattle.rules.specs.Tables.{fits as fits_of};
ghost use Rattle.rules.specs.Overdue.{overdue};
ghost use Rattle.rules.specs.Calls.{tick as tick_of};
ghost use Rattle.tables.specs.View.{view, setup_of, SameMemory};
ghost use Rattle.terms.specs.Numbers.{bench_of_terms};

use crate::due::end_waits;
use numbers::limits::LAST_TICK;
use overdue::some_overdue;
use records::Record;
use rules::fault::BenchFault;
use tables::lent::Tables;
use terms::terms::Terms;

// Whether the clock may move on, or why not.
fn check_tick<R: Record>(terms: Terms, t: &Tables<R>) -> Result<(), BenchFault>
    ensures { result ≡
        (if fits_of (setup_of terms t.now) (view terms t.now) then
        (if overdue (setup_of terms t.now) (view terms t.now) then Err MessageOverdue else
        cond (nat_lt terms.clock 8000000) (Ok tt)
        (Err ClockStopped)) else Err TableLength) }
{
    if !t.fits(terms) {
        return Err(BenchFault::TableLength);
    }
    if some_overdue(terms, t) {
        return Err(BenchFault::MessageOverdue);
    }
    if terms.clock >= LAST_TICK {
        return Err(BenchFault::ClockStopped);
    }
    Ok(())
}

/// One tick: the clock moves on, and then the waits that are due end. A refusal changes nothing.
#[tactic(auto, using(crate::proofs::Turns::tick_is))]
pub fn tick<R: Record>(terms: &mut Terms, t: &mut Tables<R>) -> Result<(), BenchFault>
    ensures is { record { answer = result; tables = view terms.new t.new } ≡ tick_of (setup_of terms.old t.old) R.Record.kind (view terms.old t.old) }
    ensures bench { bench_of_terms terms.new ≡ bench_of_terms terms.old }
    ensures same { SameMemory t.new t.old }
{
    check_tick(*terms, &*t)?;
    terms.clock += 1;
    end_waits(*terms, t);
    Ok(())
}
