//! How many seats a beacon orders.
ghost use Rattle.std.specs.Prelude.{◌≡◌, ◌≤◌};
ghost use Rattle.orders.specs.Ranking.{seat_count};

use numbers::limits::MOST_SEATS;

/// A seat count: 1 to 16.
#[derive(Clone, Copy, PartialEq, Eq, Debug)]
pub struct SeatCount {
    n: u8,
    ghost some: { 1 ≤ n },
    ghost sixteen: { n ≤ 16 },
}

impl SeatCount {
    /// A number outside 1 to 16 is taken as 1.
    // Not refused: the rules take such a number as 1, and making a beacon cannot fail.
    pub fn new(n: u8) -> SeatCount
        ensures { result.n ≡ seat_count n }
    {
        if (1..=MOST_SEATS).contains(&n) {
            SeatCount { n }
        } else {
            SeatCount { n: 1 }
        }
    }

    /// The number.
    pub fn get(self) -> u8
        ensures { result ≡ self.n }
    {
        self.n
    }
}
