//! How a seat moves through its rounds.
ghost use Rattle.std.specs.Prelude.{◌≡◌};
ghost use Rattle.writing.specs.declared.events.SeatEvent.{SeatEvent as EventOfSeat};
ghost use Rattle.writing.specs.Phases.{seat_after};

use crate::events::SeatEvent;
use rules::rows::{Phase, SeatRow};

/// What moves through the rounds: `after` is what it is after an event.
// A trait, since only the crate of a type can give it methods of its own.
pub trait SeatSteps {
    ghost after: { Self → EventOfSeat → Self };

    /// Takes an event in. One that does not fit the phase changes nothing.
    fn step(&mut self, event: SeatEvent)
        ensures { self.new ≡ after self.old event };
}

impl SeatSteps for SeatRow {
    ghost after = { seat_after };

    fn step(&mut self, event: SeatEvent) {
        match (self.phase, event) {
            (Phase::Waiting, SeatEvent::WaitOver { head, past_last }) => {
                self.head = head;
                self.phase = if past_last {
                    Phase::Resting
                } else {
                    Phase::Voting
                };
            }
            (Phase::Voting, SeatEvent::Left { next }) => {
                self.round = next;
                self.phase = Phase::Waiting;
            }
            _ => {}
        }
    }
}
