//! Leaving a round.
ghost use Rattle.std.specs.Prelude.{◌≡◌};
ghost use Rattle.rules.specs.declared.rows.Phase.TheVariants.{Voting};
ghost use Rattle.rules.specs.Tables.{seat_at};
ghost use Rattle.rules.specs.Seat.{leave as leave_of};
ghost use Rattle.tables.specs.View.{view, rows_of, setup_of, SameMemory};
ghost use Rattle.reacting.specs.Parts.{proposed};

use crate::proposal::propose;
use crate::voter::Voter;
use records::Record;
use rules::rows::CertificateRow;
use tables::lent::Tables;
use terms::terms::Terms;
use weighing::parent_choice;
use writing::events::SeatEvent;
use writing::phases::SeatSteps;
use writing::writes::{put_certificate, put_seat};

impl Voter {
    // The seat proposes for the next round, if there is one, on its choice of the notarised blocks of its round.
    fn propose_next<R: Record>(self, terms: Terms, t: &mut Tables<R>, lowest: u32)
        ensures is { view terms t.new ≡ proposed (setup_of terms t.old) R.Record.kind (view terms t.old) self.seat self.past lowest }
        ensures same { SameMemory t.new t.old }
        ensures seats { t.new.seats.now ≡ t.old.seats.now }
    {
        if self.past + 2 <= terms.rounds {
            let parent = parent_choice(terms, &*t, self.seat, self.past + 1, lowest);
            propose(terms, &mut *t, self.seat, self.past + 2, parent);
        }
    }

    // The seat leaves its round by block `lowest`, the lowest-numbered whose notarisation it holds: it proposes, unless its
    // round is the last, sends its certificate of that block and enters the next round. The certificate has the
    // signatures from before the proposal.
    pub(crate) fn leave<R: Record>(self, terms: Terms, t: &mut Tables<R>, lowest: u32)
        requires { (seat_at (rows_of t.old) self.seat).phase ≡ Voting }
        ensures is { view terms t.new ≡ leave_of (setup_of terms t.old) R.Record.kind (view terms t.old) self.seat self.past lowest }
        ensures same { SameMemory t.new t.old }
    {
        let signers = t.signers_at(terms, self.seat, lowest);
        self.propose_next(terms, &mut *t, lowest);
        let mut row = t.seat_row(self.seat);
        row.step(SeatEvent::Left {
            next: self.past + 2,
        });
        put_seat(&mut *t, self.seat, row);
        let certificate = CertificateRow {
            block: lowest,
            signers,
            tick: terms.clock,
        };
        put_certificate(terms, &mut *t, self.seat, self.past, certificate);
    }
}
