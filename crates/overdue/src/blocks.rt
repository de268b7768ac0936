//! Blocks: an honest seat sends its block when it enters the round of the block.
ghost use Rattle.std.specs.Prelude.{◌≡◌};
ghost use Rattle.tables.specs.View.{view, setup_of};
ghost use Rattle.overdue.specs.Messages.{block_late, block_lacking};

use crate::clock::is_late;
use records::Record;
use tables::lent::Tables;
use terms::terms::Terms;

// Whether a block is an honest seat's, and has to have arrived by the next tick.
pub(crate) fn block_late<R: Record>(terms: Terms, t: &Tables<R>, block: u32) -> bool
    ensures { result ≡ block_late (setup_of terms t.now) (view terms t.now) block }
{
    let owner = terms.owner_of(block);
    let round = terms.round_of(block);
    t.block_row(block).made
        && terms.is_honest(owner)
        && is_late(terms, t.entered_at(terms, owner, round))
}

// Whether a seat is honest and does not hold a block.
pub(crate) fn lacks_block<R: Record>(terms: Terms, t: &Tables<R>, block: u32, seat: u8) -> bool
    ensures { result ≡ block_lacking (setup_of terms t.now) (view terms t.now) block seat }
{
    terms.is_honest(seat) && !t.is_held(terms, seat, block)
}
