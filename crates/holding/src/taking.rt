//! Taking a block in, with its ancestors.
ghost use Rattle.std.specs.Prelude.{◌≡◌};
ghost use Rattle.rules.specs.Holding.{takes_in};
ghost use Rattle.tables.specs.View.{view, setup_of, SameMemory};
ghost use Rattle.holding.specs.Taking.{taken};

use records::Record;
use tables::lent::Tables;
use terms::terms::Terms;
use writing::writes::{hold, receive};

/// A seat takes a block in, with its ancestors and the signatures that they carry.
#[tactic(auto, unfolding(crate::specs::Taking::taken))]
pub fn take_in<R: Record>(terms: Terms, t: &mut Tables<R>, seat: u8, block: u32)
    ensures is { view terms t.new ≡ takes_in (setup_of terms t.old) (view terms t.old) seat block }
    ensures same { SameMemory t.new t.old }
{
    let round = terms.round_of(block);
    take_chain(terms, t, seat, block, round);
}

// The block is of this round, and its parent of the round before. Block 0, of round 0, is held by all. A block that the
// seat holds brings nothing new, since it took in the ancestors first.
#[tactic(auto, using(crate::proofs::Laws::taken_none, crate::proofs::Laws::taken_held))]
fn take_chain<R: Record>(terms: Terms, t: &mut Tables<R>, seat: u8, block: u32, round: u32)
    ensures is { view terms t.new ≡ taken terms.n round (view terms t.old) seat block }
    ensures same { SameMemory t.new t.old }
{
    if round == 0 || t.is_held(terms, seat, block) {
        return;
    }
    let row = t.block_row(block);
    take_chain(terms, &mut *t, seat, row.parent, round - 1);
    receive(terms, &mut *t, seat, row.parent, row.carried);
    hold(terms, &mut *t, seat, block);
}
