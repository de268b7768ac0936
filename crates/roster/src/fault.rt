//! Why a roster turns a call down.
use refusals::Refusal;

#[derive(Clone, Copy, PartialEq, Eq, Debug)]
pub enum RosterFault {
    /// The seat count is 0 or above 16.
    SeatCount,
    /// The named seat is not one of the roster's.
    NoSuchSeat,
    /// The named seat is Byzantine, where an honest one is needed.
    AlreadyByzantine,
    /// With this mark half of the seats or more would be Byzantine.
    TooManyByzantine,
}

impl Refusal for RosterFault {
    ghost use Rattle.roster.specs.Faults.{roster_fault_number, roster_fault_sentence};

    ghost number = { roster_fault_number };

    ghost sentence = { roster_fault_sentence };

    fn number(self) -> u8 {
        match self {
            RosterFault::SeatCount => 1,
            RosterFault::NoSuchSeat => 2,
            RosterFault::AlreadyByzantine => 3,
            RosterFault::TooManyByzantine => 4,
        }
    }

    fn sentence(self) -> &'static str {
        match self {
            RosterFault::SeatCount => "a roster has 1 to 16 seats",
            RosterFault::NoSuchSeat => "there is no such seat",
            RosterFault::AlreadyByzantine => "the seat is already Byzantine",
            RosterFault::TooManyByzantine => "half of the seats would be Byzantine",
        }
    }
}
