//! Block numbers: which block has which number in a bench of a given size.
ghost use Rattle.std.specs.Prelude.{◌≡◌, ◌≤◌, true, false, MatchOption};
ghost use Rattle.numbers.specs.Numbering.{within_limits, block_count, number_answer, id_answer, NumberLeadsBack, IdLeadsBack};

use crate::block_id::BlockId;
use crate::limits::{MOST_EDITIONS, MOST_ROUNDS, MOST_SEATS};

/// The size of a bench: seats, rounds and editions, each within its limits.
#[derive(Clone, Copy, PartialEq, Eq, Debug)]
pub struct Size {
    n: u8,
    rounds: u16,
    editions: u8,
    ghost n_some: { 1 ≤ n },
    ghost n_most: { n ≤ 16 },
    ghost rounds_some: { 1 ≤ rounds },
    ghost rounds_most: { rounds ≤ 256 },
    ghost editions_some: { 1 ≤ editions },
    ghost editions_most: { editions ≤ 8 },
}

impl Size {
    /// None where a count is outside its limits.
    pub fn new(n: u8, rounds: u16, editions: u8) -> Option<Size>
        ensures { MatchOption result (within_limits n rounds editions ≡ false) (λ z. (within_limits n rounds editions ≡ true) × (z.n ≡ n) × (z.rounds ≡ rounds) × (z.editions ≡ editions)) }
    {
        let within = (1..=MOST_SEATS).contains(&n)
            && (1..=MOST_ROUNDS).contains(&rounds)
            && (1..=MOST_EDITIONS).contains(&editions);
        if !within {
            return None;
        }
        Some(Size {
            n,
            rounds,
            editions,
        })
    }

    /// How many blocks there are, block 0 included.
    pub fn block_count(&self) -> u32
        ensures { result ≡ block_count self.now.n self.now.rounds self.now.editions }
    {
        1 + self.rounds as u32 * self.n as u32 * self.editions as u32
    }

    /// The number of a block; None where the bench has no such block.
    pub fn number_of(&self, id: BlockId) -> Option<u32>
        ensures { result ≡ number_answer self.now.n self.now.rounds self.now.editions id }
    {
        let exists = (1..=self.rounds).contains(&id.round)
            && id.owner < self.n
            && id.edition < self.editions;
        if !exists {
            return None;
        }
        let before = (id.round as u32 - 1) * self.n as u32 + id.owner as u32;
        Some(1 + before * self.editions as u32 + id.edition as u32)
    }

    /// The block of a number; None for block 0, which no seat owns, and past the last block.
    pub fn id_of(&self, block: u32) -> Option<BlockId>
        ensures { result ≡ id_answer self.now.n self.now.rounds self.now.editions block }
    {
        if block == 0 || block >= self.block_count() {
            return None;
        }
        let before = (block - 1) / self.editions as u32;
        Some(BlockId {
            round: (1 + before / self.n as u32) as u16,
            owner: (before % self.n as u32) as u8,
            edition: ((block - 1) % self.editions as u32) as u8,
        })
    }
}

/// On every size there is one number for each block, and one block for each number: each leads back to the other. Answers
/// whether that is proved, which it is.
#[tactic(auto, using(crate::proofs::Numbers::number_leads_back, crate::proofs::Numbers::id_leads_back))]
pub fn numbering_is_one_to_one() -> bool
    ensures proved { result ≡ true }
    ensures number_leads_back { NumberLeadsBack }
    ensures id_leads_back { IdLeadsBack }
{
    true
}
