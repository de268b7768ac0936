//! Votes.
ghost use Rattle.std.specs.Prelude.{◌≡◌};
ghost use Rattle.tables.specs.View.{view, setup_of};
ghost use Rattle.overdue.specs.Messages.{vote_late, vote_lacking};

use crate::clock::is_late;
use holding::messages::has_vote;
use records::Record;
use tables::lent::Tables;
use terms::terms::Terms;

// Whether a voter is honest, and its vote for a block has to have arrived by the next tick.
pub(crate) fn vote_late<R: Record>(terms: Terms, t: &Tables<R>, block: u32, voter: u8) -> bool
    ensures { result ≡ vote_late (setup_of terms t.now) (view terms t.now) block voter }
{
    t.vote_row(terms, voter, block)
        .sent
        .is_some_and(|tick| terms.is_honest(voter) && is_late(terms, tick))
}

// Whether a seat is honest and lacks part of what a voter's vote for a block says.
pub(crate) fn lacks_vote<R: Record>(
    terms: Terms,
    t: &Tables<R>,
    block: u32,
    voter: u8,
    seat: u8,
) -> bool
    ensures { result ≡ vote_lacking (setup_of terms t.now) (view terms t.now) block voter seat }
{
    terms.is_honest(seat) && !has_vote(terms, t, voter, block, seat)
}
