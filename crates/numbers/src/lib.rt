//! The numbers of a bench: quorum, block numbers, weights and limits.
#![tactic(auto)]

ghost use Rattle.std.specs.Prelude.{◌≡◌, ◌+◌, ◌*◌, ◌<◌, ◌≤◌};
ghost use Rattle.numbers.specs.Quorum.{majority_of, most_byzantine_of, weight_of_rank};

pub mod block_id;
pub mod limits;
pub mod seat_set;
pub mod size;

/// The majority of n seats: this many signatures notarise a block.
pub fn majority(n: u8) -> u8
    ensures value { result ≡ majority_of n }
    ensures smallest_above_half { (n < 2 * result) × (2 * result ≤ n + 2) }
{
    n / 2 + 1
}

/// The most seats of n that may be Byzantine: one more would make half of the seats Byzantine. 0 for no seats.
pub fn most_byzantine(n: u8) -> u8
    ensures value { result ≡ most_byzantine_of n }
    ensures below_half { ((1 ≤ n → 2 * result < n)) × (n ≤ 2 * (result + 1)) }
{
    n.saturating_sub(1) / 2
}

/// What a block weighs in its chain: half as much with each rank of its owner. Ranks above 15 do not occur and weigh 1.
pub fn block_weight(rank: u8) -> u16
    ensures { result ≡ weight_of_rank rank }
{
    1 << (15u8.saturating_sub(rank))
}
