//! The numbers of a bench.
ghost use Rattle.std.specs.Prelude.{◌*◌, ◌^◌, ◌<◌, ◌≤◌};
ghost use Rattle.std.specs.Int.Count.{ones};

/// The numbers of a bench, and its clock. The limits are part of the type, so nothing that takes them has to ask.
// Each number by itself, and no `Size` or `Plan` inside: the definitions of the rules name them one by one.
#[derive(Clone, Copy)]
pub struct Terms {
    /// How many seats there are.
    pub n: u8,
    /// The Byzantine seats: the bits of a `SeatSet`. As the set itself, copies of these numbers get no proof yet.
    pub marks: u16,
    /// Within so many ticks an honest seat's message has to reach every honest seat.
    pub delay: u16,
    /// The last round.
    pub rounds: u16,
    /// How many blocks a seat can make in a round; an honest seat makes only the first.
    pub editions: u8,
    /// So many signatures notarise a block.
    pub quorum: u8,
    /// The tick that it is.
    pub clock: u32,
    ghost seats_some: { 1 ≤ n },
    ghost seats_most: { n ≤ 16 },
    ghost marks_of_seats: { marks < 2 ^ n },
    ghost fewer_than_half: { 2 * ones marks < n },
    ghost delay_some: { 1 ≤ delay },
    ghost delay_most: { delay ≤ 1000 },
    ghost rounds_some: { 1 ≤ rounds },
    ghost rounds_most: { rounds ≤ 256 },
    ghost editions_some: { 1 ≤ editions },
    ghost editions_most: { editions ≤ 8 },
    ghost quorum_some: { 1 ≤ quorum },
    ghost quorum_most: { quorum ≤ 16 },
    ghost clock_most: { clock ≤ 8000000 },
}
