//! The final head of a seat when its wait ends.
ghost use Rattle.std.specs.Prelude.{◌≡◌, false, not, if◌then◌else◌, ◌==◌, is_some};
ghost use Rattle.rules.specs.Loops.{first_from};
ghost use Rattle.rules.specs.Setup.{round_start, round_width};
ghost use Rattle.rules.specs.Tables.{block_at};
ghost use Rattle.rules.specs.VotingChoice.{holds_valid};
ghost use Rattle.rules.specs.HeadChoice.{head_from, next_head};
ghost use Rattle.tables.specs.View.{view, setup_of};
ghost use Rattle.ticking.specs.Strays.{stray};

use reacting::choice::{first_valid, holds_valid};
use records::Record;
use tables::lent::Tables;
use terms::terms::Terms;

// From this round on a seat looks at the round before for its final head.
const LOOKS_BACK_FROM: u16 = 3;

// Whether a seat holds a block that is valid and does not stand on `parent`.
fn is_stray<R: Record>(terms: Terms, t: &Tables<R>, seat: u8, parent: u32, block: u32) -> bool
    ensures { result ≡ (if holds_valid (setup_of terms t.now) R.Record.kind (view terms t.now) seat block then not ((block_at (view terms t.now) block).parent == parent) else false) }
{
    holds_valid(terms, t, seat, block) && t.block_row(block).parent != parent
}

// Whether one of the valid blocks of a round that a seat holds does not stand on `parent`.
fn some_stray<R: Record>(terms: Terms, t: &Tables<R>, seat: u8, parent: u32, round: u16) -> bool
    ensures { result ≡ is_some (first_from (stray (setup_of terms t.now) R.Record.kind (view terms t.now) seat parent) (round_start (setup_of terms t.now) round) (round_width (setup_of terms t.now))) }
{
    terms
        .blocks_of(round)
        .any(|block| is_stray(terms, t, seat, parent, block))
}

// The head by the valid blocks of a round that a seat holds: the parent of them all if they have one, else `old`.
fn common_parent<R: Record>(terms: Terms, t: &Tables<R>, seat: u8, round: u16, old: u32) -> u32
    ensures { result ≡ head_from (setup_of terms t.now) R.Record.kind (view terms t.now) seat round old (first_from (holds_valid (setup_of terms t.now) R.Record.kind (view terms t.now) seat) (round_start (setup_of terms t.now) round) (round_width (setup_of terms t.now))) }
{
    match first_valid(terms, t, seat, round) {
        None => old,
        Some(first) => {
            let parent = t.block_row(first).parent;
            if some_stray(terms, t, seat, parent, round) {
                old
            } else {
                parent
            }
        }
    }
}

// The final head of a seat after its wait. From round 3 on: if all valid blocks of the round before that it holds have
// one parent, that parent; else the head stays.
#[tactic(auto, unfolding(rules::specs::HeadChoice::next_head))]
pub(crate) fn next_head<R: Record>(terms: Terms, t: &Tables<R>, seat: u8) -> u32
    ensures { result ≡ next_head (setup_of terms t.now) R.Record.kind (view terms t.now) seat }
{
    let row = t.seat_row(seat);
    if row.round >= LOOKS_BACK_FROM {
        common_parent(terms, t, seat, row.round - 1, row.head)
    } else {
        row.head
    }
}
