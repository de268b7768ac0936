//! Why a drawing is not made.
ghost use Rattle.std.specs.Prelude.{◌≡◌};
ghost use Rattle.drawing.specs.declared.fault.DrawFault.TheVariants as the_fault;

use refusals::Refusal;
use roster::fault::RosterFault;
use std::alloc::AllocError;
use std::fmt;

/// Why the rounds of a roster are not drawn.
// An enum of its own and no `TextFault`, so that a `?` makes one of a roster's refusal: `From` is written only for a type of the crate.
#[derive(Clone, Copy, PartialEq, Eq, Debug)]
pub enum DrawFault {
    /// The roster refused.
    Roster(RosterFault),
    /// No rounds are asked for, or more than the beacon covers, or the beacon is for another seat count.
    Rounds,
    /// Memory ran out.
    Memory,
}

impl From<RosterFault> for DrawFault {
    ghost from_gives = { λ e r. r ≡ the_fault.Roster e };

    fn from(e: RosterFault) -> DrawFault {
        DrawFault::Roster(e)
    }
}

impl From<AllocError> for DrawFault {
    ghost from_gives = { λ _ r. r ≡ the_fault.Memory };

    fn from(_e: AllocError) -> DrawFault {
        Self::Memory
    }
}

impl From<fmt::Error> for DrawFault {
    ghost from_gives = { λ _ r. r ≡ the_fault.Memory };

    fn from(_e: fmt::Error) -> DrawFault {
        DrawFault::Memory
    }
}

impl Refusal for DrawFault {
    ghost use Rattle.drawing.specs.Faults.{draw_fault_number, draw_fault_sentence};

    ghost number = { draw_fault_number };

    ghost sentence = { draw_fault_sentence };

    fn number(self) -> u8 {
        match self {
            DrawFault::Roster(fault) => fault.number(),
            DrawFault::Rounds => 6,
            // It is printed as a refusal is, so it has a number: 0, which is none of the rules'.
            DrawFault::Memory => 0,
        }
    }

    fn sentence(self) -> &'static str {
        match self {
            DrawFault::Roster(fault) => fault.sentence(),
            DrawFault::Rounds => "the beacon has no such rounds",
            DrawFault::Memory => "out of memory",
        }
    }
}
