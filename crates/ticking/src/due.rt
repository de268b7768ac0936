//! The waits that end at a tick.
ghost use Rattle.std.specs.Prelude.{◌≡◌};
ghost use Rattle.rules.specs.Loops.{upto};
ghost use Rattle.rules.specs.Calls.{end_due};
ghost use Rattle.tables.specs.View.{view, setup_of, SameMemory};

use crate::waits::{wait_due, wake};
use reacting::reaction::react;
use records::Record;
use tables::lent::Tables;
use terms::terms::Terms;

// The wait of a seat ends, if it is due: the seat takes its final head, votes or rests, and reacts.
fn end_if_due<R: Record>(terms: Terms, t: &mut Tables<R>, seat: u8)
    ensures is { view terms t.new ≡ end_due (setup_of terms t.old) R.Record.kind seat (view terms t.old) }
    ensures same { SameMemory t.new t.old }
{
    if wait_due(terms, &*t, seat) {
        wake(terms, &mut *t, seat);
        react(terms, t, seat);
    }
}

// The waits that are due end, in rising seat order.
pub(crate) fn end_waits<R: Record>(terms: Terms, t: &mut Tables<R>)
    ensures is { view terms t.new ≡ upto (end_due (setup_of terms t.old) R.Record.kind) (view terms t.old) terms.n }
    ensures same { SameMemory t.new t.old }
{
    for seat in 0..terms.n {
        end_if_due(terms, &mut *t, seat);
    }
}
