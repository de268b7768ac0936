//! A seat that votes.
ghost use Rattle.std.specs.Prelude.{◌<◌};

// A seat whose wait in round past + 1 is over. The limits are part of the type.
#[derive(Clone, Copy)]
pub(crate) struct Voter {
    pub(crate) seat: u8,
    // the round before its own
    pub(crate) past: u16,
    ghost seat_small: { seat < 16 },
    ghost past_small: { past < 256 },
}
