//! What a seat does when something new has reached it.
ghost use Rattle.std.specs.Prelude.{◌≡◌, ◌*◌, ◌<◌, ◌≤◌, length};
ghost use Rattle.rules.specs.declared.rows.Phase.TheVariants.{Voting};
ghost use Rattle.rules.specs.Setup.{block_rows};
ghost use Rattle.rules.specs.Tables.{seat_at};
ghost use Rattle.rules.specs.Seat.{react_in, react as react_of};
ghost use Rattle.tables.specs.View.{view, rows_of, setup_of, SameMemory};
ghost use Rattle.reacting.specs.Parts.{seat_reacts};

use crate::voter::Voter;
use holding::notarised::lowest_notarised;
use records::Record;
use rules::rows::Phase;
use tables::lent::Tables;
use terms::terms::Terms;

impl Voter {
    // It reacts: if it holds a notarisation of its round it leaves. Otherwise it votes, by the round's order, which is
    // copied out for that, and leaves if it now holds one.
    fn react_in<R: Record>(self, terms: Terms, t: &mut Tables<R>)
        requires { (seat_at (rows_of t.old) self.seat).phase ≡ Voting }
        ensures is { view terms t.new ≡ react_in (setup_of terms t.old) R.Record.kind (view terms t.old) self.seat self.past }
        ensures same { SameMemory t.new t.old }
    {
        let round = self.past + 1;
        if let Some(block) = lowest_notarised(terms, &*t, self.seat, round) {
            self.leave(terms, &mut *t, block);
            return;
        }
        let ranks = t.order_row(round as u32);
        self.vote(terms, &mut *t, ranks);
        if let Some(block) = lowest_notarised(terms, &*t, self.seat, round) {
            self.leave(terms, &mut *t, block);
        }
    }
}

/// A seat of the bench reacts, if it votes in one of the rounds. For any other number nothing happens. On tables that fit
/// this is the reaction of the rules, which do not ask for the round.
pub fn react<R: Record>(terms: Terms, t: &mut Tables<R>, seat: u8)
    ensures is { view terms t.new ≡ seat_reacts (setup_of terms t.old) R.Record.kind (view terms t.old) seat }
    ensures by_rules { seat < terms.n → length t.old.received.now ≤ block_rows (setup_of terms t.old) * terms.n → view terms t.new ≡ react_of (setup_of terms t.old) R.Record.kind (view terms t.old) seat }
    ensures same { SameMemory t.new t.old }
{
    let row = t.seat_row(seat);
    if seat < terms.n && row.phase == Phase::Voting && row.round <= terms.rounds {
        let past = row.round.saturating_sub(1);
        Voter { seat, past }.react_in(terms, t);
    }
}
