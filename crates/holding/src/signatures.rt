//! The signatures that exist.
ghost use Rattle.std.specs.Prelude.{◌≡◌, ◌<◌};
ghost use Rattle.rules.specs.Holding.{signers as signers_of};
ghost use Rattle.tables.specs.View.{view, setup_of};

use numbers::seat_set::SeatSet;
use records::Record;
use tables::lent::Tables;
use terms::terms::Terms;

/// The signatures that exist on a block, received or not: bit s is seat s.
#[tactic(auto, using(tables::proofs::Loops::upto_more), unfolding(rules::specs::Loops::upto, rules::specs::Holding::signers))]
pub fn signers<R: Record>(terms: Terms, t: &Tables<R>, block: u32) -> u16
    ensures { result ≡ signers_of (setup_of terms t.now) (view terms t.now) block }
{
    let mut all = SeatSet::default();
    for seat in 0..terms.n {
        if t.vote_row(terms, seat, block).sent.is_some() {
            all = all.with(seat);
        }
    }
    all.bits()
}
