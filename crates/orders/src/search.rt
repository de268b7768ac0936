//! A search in a row of sixteen.
ghost use Rattle.std.specs.Prelude.{◌≡◌, ◌≢◌, ℕ, ◌<◌, min, slice_index, MatchOption};

/// The first of the first n places that holds the value; a row has sixteen places.
pub fn first_place(row: &[u8; 16], n: u8, value: u8) -> Option<u8>
    ensures { MatchOption result ((k : ℕ) → k < min n 16 → slice_index row.now k ≢ value) (λ p. (p < min n 16) × (slice_index row.now p ≡ value) × ((k : ℕ) → k < p → slice_index row.now k ≢ value)) }
{
    // Over numbers and not by `position`, which answers a `usize`: a place is a `u8` here, as a seat is.
    (0..n.min(16)).find(|&place| row[place as usize] == value)
}
