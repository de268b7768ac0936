//! Numbers from a program's arguments.
#![tactic(auto)]

ghost use Rattle.std.specs.Prelude.{◌≡◌, ℕ, ◌^◌, ◌<◌, min, Some, decimal, Result};
ghost use Rattle.std.specs.Result.{result_unwrap_or};
ghost use Rattle.std.specs.declared.num.TryFromIntError.{TryFromIntError};

use std::num::TryFromIntError;

/// A type that counts are kept in.
pub trait Count: TryFrom<u64, Error = TryFromIntError> + Copy {
    /// The largest count that it holds.
    const LARGEST: Self;

    ghost LARGEST: { Self };

    // The number that a value is.
    ghost value: { Self → ℕ };

    // What does not fit comes to the largest.
    ghost clamps: { (count : ℕ) (r : Result Self TryFromIntError) → Self.TryFrom.try_from_gives count r → value (result_unwrap_or r LARGEST) ≡ min count (value LARGEST) };
}

impl Count for u8 {
    ghost use Rattle.std.proofs.Common.{rules};

    const LARGEST: u8 = u8::MAX;

    ghost LARGEST = { 255 };

    ghost value = { λ n. n };

    ghost clamps = { Prim.search rules };
}

impl Count for u16 {
    ghost use Rattle.std.proofs.Common.{rules};

    const LARGEST: u16 = u16::MAX;

    ghost LARGEST = { 65535 };

    ghost value = { λ n. n };

    ghost clamps = { Prim.search rules };
}

/// The number that a word writes in decimal; None where it writes none, or one that 64 bits do not hold.
pub fn number(word: &str) -> Option<u64>
    ensures { (n : ℕ) → n < 2 ^ 64 → word.now ≡ decimal n → result ≡ Some n }
{
    word.parse::<u64>().ok()
}

/// A count in a smaller type; the largest that it holds where it does not fit.
// Not refused here: the largest is past every limit of the library, which refuses it in its own order and by its own number.
pub fn clamped<T: Count>(count: u64) -> T
    ensures { T.value result ≡ min count (T.value T.LARGEST) }
{
    T::try_from(count).unwrap_or(T::LARGEST)
}
