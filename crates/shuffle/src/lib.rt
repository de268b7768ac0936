//! The Shuffle: seats lead in an order drawn by lot.
#![tactic(auto)]

ghost use Rattle.std.specs.Prelude.{◌≡◌, ◌+◌, ◌%◌, ◌<◌, ◌≤◌, take, bit_xor};
ghost use Rattle.orders.specs.Ranking.{seat_count};
ghost use Rattle.shuffle.specs.SplitMix.{advanced, drawn};
ghost use Rattle.shuffle.specs.Shuffle.{arrangement, exchanged, shuffle_ranking};
ghost use Rattle.shuffle.specs.ShuffleOrder.{shuffle_order};

use crate::splitmix::SplitMix64;
use orders::Beacon;
use orders::search::first_place;
use orders::seats::SeatCount;

pub mod splitmix;

/// In each round the seats stand in an order that SplitMix64 draws. It covers 65,535 rounds.
#[derive(Clone, Copy)]
pub struct Shuffle {
    seed: u64,
    seats: SeatCount,
}

impl Shuffle {
    /// A seat count outside 1 to 16 is taken as 1.
    pub fn new(seed: u64, n: u8) -> Shuffle
        ensures { (result.seats.n ≡ seat_count n) × (result.seed ≡ seed) }
    {
        Shuffle {
            seed,
            seats: SeatCount::new(n),
        }
    }
}

// Draws a place from 0 to m, and exchanges it with place m.
fn exchange(places: &mut [u8; 16], m: u8, source: &mut SplitMix64)
    requires { m < 16 }
    ensures list { places.new ≡ exchanged m (drawn (advanced source.old.state) % (m + 1)) places.old }
    ensures moves { source.new.state ≡ advanced source.old.state }
{
    let d = source.draw();
    places.swap(m as usize, (d % (m as u64 + 1)) as usize);
}

// The seats from 0 to n - 1 in the order of their ranks, with the generator started at `start`; past them what the list began
// with. A list of sixteen, by value, as every order is.
fn arrange(start: u64, n: u8) -> [u8; 16]
    requires { (1 ≤ n) × (n ≤ 16) }
    ensures { take n result ≡ arrangement n start }
{
    let mut places: [u8; 16] = [0, 1, 2, 3, 4, 5, 6, 7, 8, 9, 10, 11, 12, 13, 14, 15];
    let mut source = SplitMix64::new(start);
    for m in (1..n).rev() {
        exchange(&mut places, m, &mut source);
    }
    places
}

impl Beacon for Shuffle {
    ghost ranking = { λ b. shuffle_ranking b.seed b.seats.n };

    ghost lawful = { λ b.
        record {
          some = b.seats.some;
          sixteen = b.seats.sixteen;
          orders = λ r h k. shuffle_order b.seats.n (bit_xor b.seed r) b.seats.some;
        } };

    fn seat_count(&self) -> u8 {
        self.seats.get()
    }

    fn last_round(&self) -> u16 {
        u16::MAX
    }

    fn covered_rank(&self, round: u16, seat: u8) -> u8 {
        let n = self.seats.get();
        let places = arrange(self.seed ^ round as u64, n);
        // Each seat below n has a place.
        first_place(&places, n, seat).unwrap_or(n)
    }
}
