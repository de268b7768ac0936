//! Sets of seats.
ghost use Rattle.std.specs.Prelude.{◌≡◌, ℕ, ◌+◌, ◌^◌, ◌<◌, ◌≤◌, false, ◌==◌, bit_or, count_ones};
ghost use Rattle.numbers.specs.Sets.{has_bit, seat_bit};

use crate::limits::MOST_SEATS;
use std::marker::Model;

/// A set of seats. Bit s of its number is set where seat s is in it; to a contract the set is that number.
#[derive(Clone, Copy, PartialEq, Eq, Debug)]
pub struct SeatSet {
    bits: u16,
}

impl Model for SeatSet {
    ghost use Rattle.std.specs.Prelude.{ℕ};

    ghost Value = { ℕ };

    ghost view = { λ s. s.bits };

    ghost inverse = { λ m. record { bits = m } };
}

impl SeatSet {
    /// The set of one seat. There is no seat 16, nor any above: the set of such a seat is empty.
    pub fn only(seat: u8) -> SeatSet
        ensures { result ≡ seat_bit seat }
    {
        SeatSet {
            bits: 1u16.checked_shl(seat as u32).unwrap_or(0),
        }
    }

    /// Whether a seat is in the set; false from seat 16 on.
    #[tactic(auto, using(crate::proofs::Sets::none_past))]
    pub fn contains(self, seat: u8) -> bool
        ensures { result ≡ has_bit self seat }
    {
        seat < MOST_SEATS && (self.bits >> seat) % 2 == 1
    }

    /// The set with one seat more. There is no seat 16, nor any above: these change nothing.
    #[tactic(auto, using(crate::proofs::Sets::one_more, crate::proofs::Sets::still_within))]
    pub fn with(self, seat: u8) -> SeatSet
        ensures value { result ≡ bit_or self (seat_bit seat) }
        ensures one_more { seat < 16 → has_bit self seat ≡ false → count_ones result ≡ count_ones self + 1 }
        ensures within { (n : ℕ) → seat < n → self < 2 ^ n → result < 2 ^ n }
    {
        self.union(SeatSet::only(seat))
    }

    /// The seats that are in one of the sets, or in both.
    pub fn union(self, other: SeatSet) -> SeatSet
        ensures { result ≡ bit_or self other }
    {
        SeatSet {
            bits: self.bits | other.bits,
        }
    }

    /// Whether each seat of the other set is in this one.
    pub fn includes(self, other: SeatSet) -> bool
        ensures { result ≡ (bit_or self other == self) }
    {
        self.union(other) == self
    }

    /// How many seats are in the set.
    pub fn count(self) -> u8
        ensures value { result ≡ count_ones self }
        ensures most { result ≤ 16 }
    {
        self.bits.count_ones() as u8
    }

    /// The set's number.
    pub fn bits(self) -> u16
        ensures { result ≡ self }
    {
        self.bits
    }
}

/// The empty set.
// Written out: what a derived `default` promises names the private field, and so says nothing to other crates.
impl Default for SeatSet {
    ghost is_default = { λ s. s ≡ 0 };

    fn default() -> SeatSet {
        SeatSet { bits: 0 }
    }
}

/// The set of a number.
impl From<u16> for SeatSet {
    ghost from_gives = { λ bits s. s ≡ bits };

    fn from(bits: u16) -> SeatSet {
        SeatSet { bits }
    }
}
