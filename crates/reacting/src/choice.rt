//! The blocks that a seat votes for: of the valid blocks of its round that it holds, those of lowest rank.
//! `ranks` is the order of that round, by value: that is a rule here for what votes go by.
ghost use Rattle.std.specs.Prelude.{◌≡◌, ◌≤◌, [], IfSome};
ghost use Rattle.rules.specs.Loops.{first_from};
ghost use Rattle.rules.specs.Setup.{setup_with, block_round, round_start, round_width};
ghost use Rattle.rules.specs.VotingChoice.{holds_valid};
ghost use Rattle.tables.specs.View.{view, setup_of};
ghost use Rattle.terms.specs.Numbers.{bench_of_terms};
ghost use Rattle.reacting.specs.Turns.{rank_by, lower_by, lowest_by};

use records::Record;
use tables::lent::Tables;
use terms::terms::Terms;

/// Whether a seat holds a block that is valid.
pub fn holds_valid<R: Record>(terms: Terms, t: &Tables<R>, seat: u8, block: u32) -> bool
    ensures { result ≡ holds_valid (setup_of terms t.now) R.Record.kind (view terms t.now) seat block }
{
    t.is_held(terms, seat, block) && t.is_valid(block)
}

/// The first valid block of a round that a seat holds.
pub fn first_valid<R: Record>(terms: Terms, t: &Tables<R>, seat: u8, round: u16) -> Option<u32>
    ensures is { result ≡ first_from (holds_valid (setup_of terms t.now) R.Record.kind (view terms t.now) seat) (round_start (setup_of terms t.now) round) (round_width (setup_of terms t.now)) }
    ensures of_round { IfSome result (λ c. 1 ≤ round → block_round (setup_with (bench_of_terms terms) []) c ≡ round) }
{
    terms
        .blocks_of(round)
        .find(|&block| holds_valid(terms, t, seat, block))
}

// The rank of a block, by the order of its round: that of its owner. 0 leads.
pub(crate) fn rank_in(terms: Terms, ranks: [u8; 16], block: u32) -> u8
    ensures { result ≡ rank_by (setup_with (bench_of_terms terms) []) ranks block }
{
    ranks[terms.owner_of(block) as usize]
}

// The rank of this block, if the seat holds it and it is valid and of lower rank; else `low`.
fn lower_rank<R: Record>(
    terms: Terms,
    t: &Tables<R>,
    ranks: [u8; 16],
    seat: u8,
    block: u32,
    low: u8,
) -> u8
    ensures { result ≡ lower_by (setup_of terms t.now) R.Record.kind ranks (view terms t.now) seat block low }
{
    let rank = rank_in(terms, ranks, block);
    if holds_valid(terms, t, seat, block) && rank < low {
        rank
    } else {
        low
    }
}

// The lowest rank of the valid blocks of a round that a seat holds; `first` is one of them.
pub(crate) fn lowest_rank<R: Record>(
    terms: Terms,
    t: &Tables<R>,
    ranks: [u8; 16],
    seat: u8,
    round: u16,
    first: u32,
) -> u8
    ensures { result ≡ lowest_by (setup_of terms t.now) R.Record.kind ranks (view terms t.now) seat round first }
{
    let rank = rank_in(terms, ranks, first);
    terms.blocks_of(round).fold(rank, |low, block| {
        lower_rank(terms, t, ranks, seat, block, low)
    })
}
