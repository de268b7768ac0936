//! What chains weigh, and which block a proposal stands on.
#![tactic(auto)]

ghost use Rattle.std.specs.Prelude.{◌≡◌};
ghost use Rattle.rules.specs.Weights.{weight_of};
ghost use Rattle.rules.specs.ParentChoice.{parent_choice};
ghost use Rattle.tables.specs.View.{view, setup_of};
ghost use Rattle.weighing.specs.Turns.{heavier_of};

use holding::notarised::holds_notarisation;
use numbers::block_weight;
use records::Record;
use tables::lent::Tables;
use terms::terms::Terms;

// The weight of a block's chain, down to block 0, which weighs nothing.
fn weight_of<R: Record>(terms: Terms, t: &Tables<R>, block: u32) -> u64
    ensures { result ≡ weight_of (setup_of terms t.now) (view terms t.now) block }
{
    let mut sum = 0;
    let mut at = block;
    for _ in 0..terms.round_of(block) {
        sum += block_weight(t.rank_of(terms, at)) as u64;
        at = t.block_row(at).parent;
    }
    sum
}

// The block, if the seat holds a notarisation of it and its chain is heavier than that of `best`; else `best`.
fn heavier<R: Record>(terms: Terms, t: &Tables<R>, seat: u8, block: u32, best: u32) -> u32
    ensures { result ≡ heavier_of (setup_of terms t.now) (view terms t.now) seat block best }
{
    if holds_notarisation(terms, t, seat, block)
        && weight_of(terms, t, best) < weight_of(terms, t, block)
    {
        block
    } else {
        best
    }
}

/// Of the blocks of a round whose notarisation a seat holds, the one with the heaviest chain, the lower number on a tie.
/// `lowest` is the lowest-numbered of them.
pub fn parent_choice<R: Record>(
    terms: Terms,
    t: &Tables<R>,
    seat: u8,
    round: u16,
    lowest: u32,
) -> u32
    ensures { result ≡ parent_choice (setup_of terms t.now) (view terms t.now) seat round lowest }
{
    terms.blocks_of(round).fold(lowest, |best, block| {
        heavier(terms, t, seat, block, best)
    })
}
