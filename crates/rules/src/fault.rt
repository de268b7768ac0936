//! Why a bench turns a call down.
ghost use Rattle.std.specs.Prelude.{◌≡◌};
ghost use Rattle.rules.specs.declared.fault.BenchFault.TheVariants.{Roster};

use refusals::Refusal;
use roster::fault::RosterFault;

#[derive(Clone, Copy, PartialEq, Eq, Debug)]
pub enum BenchFault {
    /// The roster turned it down.
    Roster(RosterFault),
    /// A named seat is not one of the bench's.
    NoSuchSeat,
    /// The named seat is Byzantine, where an honest one is needed.
    SeatIsByzantine,
    /// The named seat is honest, where a Byzantine one is needed.
    SeatIsHonest,
    /// The delay is 0 or above 1,000.
    DelayOutOfRange,
    /// A round or round count is 0 or above its limit, or the beacon does not cover it or has another seat count.
    RoundOutOfRange,
    /// The edition count is 0 or above 8, or an edition is not below it.
    EditionOutOfRange,
    /// A table has another length than required.
    TableLength,
    /// No block has this number.
    NoSuchBlock,
    /// That vote or certificate was never sent.
    NeverSent,
    /// The receiver has all that the message says, or the signature exists, or the block's place is taken.
    NothingNew,
    /// The parent is not of the round before, or is not notarised.
    WrongParent,
    /// A message is overdue at the next tick.
    MessageOverdue,
    /// The clock stands at its last tick.
    ClockStopped,
    /// An output buffer is too short.
    ShortBuffer,
}

impl From<RosterFault> for BenchFault {
    ghost from_gives = { λ e r. r ≡ Roster e };

    fn from(e: RosterFault) -> BenchFault {
        BenchFault::Roster(e)
    }
}

impl Refusal for BenchFault {
    ghost use Rattle.rules.specs.Faults.{bench_fault_number, bench_fault_sentence};

    ghost number = { bench_fault_number };

    ghost sentence = { bench_fault_sentence };

    fn number(self) -> u8 {
        match self {
            BenchFault::Roster(f) => f.number(),
            BenchFault::NoSuchSeat => 2,
            BenchFault::SeatIsByzantine => 3,
            BenchFault::SeatIsHonest => 3,
            BenchFault::DelayOutOfRange => 5,
            BenchFault::RoundOutOfRange => 6,
            BenchFault::EditionOutOfRange => 7,
            BenchFault::TableLength => 8,
            BenchFault::NoSuchBlock => 9,
            BenchFault::NeverSent => 10,
            BenchFault::NothingNew => 11,
            BenchFault::WrongParent => 12,
            BenchFault::MessageOverdue => 13,
            BenchFault::ClockStopped => 14,
            BenchFault::ShortBuffer => 15,
        }
    }

    fn sentence(self) -> &'static str {
        match self {
            BenchFault::Roster(f) => f.sentence(),
            BenchFault::NoSuchSeat => "there is no such seat",
            BenchFault::SeatIsByzantine => "the seat is Byzantine",
            BenchFault::SeatIsHonest => "the seat is honest",
            BenchFault::DelayOutOfRange => "a delay is 1 to 1,000 ticks",
            BenchFault::RoundOutOfRange => "the round is not covered",
            BenchFault::EditionOutOfRange => "the edition is out of range",
            BenchFault::TableLength => "a table has the wrong length",
            BenchFault::NoSuchBlock => "there is no such block",
            BenchFault::NeverSent => "this was never sent",
            BenchFault::NothingNew => "there is nothing new in it",
            BenchFault::WrongParent => "the parent does not fit",
            BenchFault::MessageOverdue => "a message is overdue",
            BenchFault::ClockStopped => "the clock has stopped",
            BenchFault::ShortBuffer => "the buffer is too short",
        }
    }
}
