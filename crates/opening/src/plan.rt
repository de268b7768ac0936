//! What a bench is opened with, besides its roster and its beacon.

/// The numbers that whoever opens a bench chooses.
#[derive(Clone, Copy)]
pub struct Plan {
    /// Within so many ticks an honest seat's message has to reach every honest seat.
    pub delay: u16,
    /// The last round.
    pub rounds: u16,
    /// How many blocks a seat can make in a round.
    pub editions: u8,
}
