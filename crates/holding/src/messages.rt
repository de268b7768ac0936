//! Whether a seat has all that a message says.
ghost use Rattle.std.specs.Prelude.{◌≡◌};
ghost use Rattle.rules.specs.Holding.{has_vote, has_certificate};
ghost use Rattle.tables.specs.View.{view, setup_of};

use numbers::seat_set::SeatSet;
use records::Record;
use tables::lent::Tables;
use terms::terms::Terms;

/// Whether a seat has all that a voter's vote for a block says: the block and that signature.
#[tactic(auto, unfolding(rules::specs::Sets::bit))]
pub fn has_vote<R: Record>(terms: Terms, t: &Tables<R>, voter: u8, block: u32, seat: u8) -> bool
    ensures { result ≡ has_vote (setup_of terms t.now) (view terms t.now) voter block seat }
{
    let row = t.received_row(terms, seat, block);
    row.held && SeatSet::from(row.signers).contains(voter)
}

/// Whether a seat has all that a certificate says: its block, and its signatures on it.
// Block and signatures and not the row: the tick is no part of what a receiver can lack.
pub fn has_certificate<R: Record>(
    terms: Terms,
    t: &Tables<R>,
    block: u32,
    signers: u16,
    seat: u8,
) -> bool
    ensures { result ≡ has_certificate (setup_of terms t.now) (view terms t.now) block signers seat }
{
    let row = t.received_row(terms, seat, block);
    row.held && SeatSet::from(row.signers).includes(SeatSet::from(signers))
}
