//! The Wheel: seats lead in turn.
ghost use Rattle.std.specs.Prelude.{◌≡◌};
ghost use Rattle.orders.specs.Ranking.{seat_count};
ghost use Rattle.orders.specs.Wheel.{wheel_ranking};
ghost use Rattle.orders.specs.WheelOrder.{wheel_order};

use crate::Beacon;
use crate::seats::SeatCount;

/// In each round the next seat has rank 0, and the others follow it in turn. It covers 65,535 rounds.
#[derive(Clone, Copy)]
pub struct Wheel {
    seats: SeatCount,
}

impl Wheel {
    /// A seat count outside 1 to 16 is taken as 1.
    pub fn new(n: u8) -> Wheel
        ensures { result.seats.n ≡ seat_count n }
    {
        Wheel {
            seats: SeatCount::new(n),
        }
    }
}

impl Beacon for Wheel {
    ghost ranking = { λ w. wheel_ranking w.seats.n };

    ghost lawful = { λ w. record { some = w.seats.some; sixteen = w.seats.sixteen; orders = λ r h k. wheel_order w.seats.n r w.seats.some } };

    // Said by each beacon: a trait cannot read a field of its types, and the last round is a beacon's own.
    fn seat_count(&self) -> u8 {
        self.seats.get()
    }

    fn last_round(&self) -> u16 {
        u16::MAX
    }

    fn covered_rank(&self, round: u16, seat: u8) -> u8 {
        let n = self.seats.get() as u16;
        let leader = round % n;
        ((seat as u16 + n - leader) % n) as u8
    }
}
