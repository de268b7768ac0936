//! The limits of a bench.

/// Seats: 1 to this many.
pub const MOST_SEATS: u8 = 16;

/// Rounds: 1 to this many.
pub const MOST_ROUNDS: u16 = 256;

/// Editions of a block: 1 to this many.
pub const MOST_EDITIONS: u8 = 8;

/// Ticks within which a message has to arrive: 1 to this many.
pub const MOST_DELAY: u16 = 1_000;

/// The tick at which the clock stands still.
pub const LAST_TICK: u32 = 8_000_000;
