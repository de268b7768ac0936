//! The votes of a seat.
ghost use Rattle.std.specs.Prelude.{◌≡◌, ◌+◌};
ghost use Rattle.rules.specs.Seat.{vote as vote_of};
ghost use Rattle.tables.specs.View.{view, setup_of, order_at, SameMemory};
ghost use Rattle.reacting.specs.Turns.{vote_by, votes_by};

use crate::choice::{first_valid, holds_valid, lowest_rank, rank_in};
use crate::voter::Voter;
use numbers::seat_set::SeatSet;
use records::Record;
use tables::lent::Tables;
use terms::terms::Terms;
use writing::writes::{put_vote, receive};

// Each also promises that the seats' rows stay (`seats`): leaving a round needs the seat's phase, without a look into the votes.
impl Voter {
    // The seat votes for a block that it holds, if the block is valid and of rank `low`; it receives its own signature.
    fn vote_if_lowest<R: Record>(
        self,
        terms: Terms,
        t: &mut Tables<R>,
        ranks: [u8; 16],
        low: u8,
        block: u32,
    )
        ensures is { view terms t.new ≡ vote_by (setup_of terms t.old) R.Record.kind ranks self.seat low block (view terms t.old) }
        ensures same { SameMemory t.new t.old }
        ensures seats { t.new.seats.now ≡ t.old.seats.now }
    {
        if holds_valid(terms, &*t, self.seat, block) && rank_in(terms, ranks, block) == low {
            put_vote(terms, &mut *t, self.seat, block);
            let own = SeatSet::only(self.seat).bits();
            receive(terms, &mut *t, self.seat, block, own);
        }
    }

    // The seat votes for the blocks of its round that have the rank `low`.
    fn vote_at_rank<R: Record>(self, terms: Terms, t: &mut Tables<R>, ranks: [u8; 16], low: u8)
        ensures is { view terms t.new ≡ votes_by (setup_of terms t.old) R.Record.kind ranks (view terms t.old) self.seat (self.past + 1) low }
        ensures same { SameMemory t.new t.old }
        ensures seats { t.new.seats.now ≡ t.old.seats.now }
    {
        for block in terms.blocks_of(self.past + 1) {
            self.vote_if_lowest(terms, &mut *t, ranks, low, block);
        }
    }

    // All votes of the seat in one reaction; `ranks` is the order of its round.
    pub(crate) fn vote<R: Record>(self, terms: Terms, t: &mut Tables<R>, ranks: [u8; 16])
        requires { ranks ≡ order_at t.old.orders.now (self.past + 1) }
        ensures is { view terms t.new ≡ vote_of (setup_of terms t.old) R.Record.kind (view terms t.old) self.seat (self.past + 1) }
        ensures same { SameMemory t.new t.old }
        ensures seats { t.new.seats.now ≡ t.old.seats.now }
    {
        if let Some(first) = first_valid(terms, &*t, self.seat, self.past + 1) {
            let low = lowest_rank(terms, &*t, ranks, self.seat, self.past + 1, first);
            self.vote_at_rank(terms, t, ranks, low);
        }
    }
}
