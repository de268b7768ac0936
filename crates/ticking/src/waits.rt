//! A seat's wait: whether it is due to end, and its end.
ghost use Rattle.std.specs.Prelude.{◌≡◌, ◌+◌, ◌*◌, nat_le};
ghost use Rattle.rules.specs.declared.rows.Phase.TheVariants.{Waiting};
ghost use Rattle.rules.specs.Tables.{seat_at, entered_at};
ghost use Rattle.rules.specs.Seat.{wakes};
ghost use Rattle.rules.specs.Calls.{wait_due};
ghost use Rattle.tables.specs.View.{view, rows_of, setup_of, SameMemory};

use crate::heads::next_head;
use records::Record;
use rules::rows::Phase;
use tables::lent::Tables;
use terms::terms::Terms;
use writing::events::SeatEvent;
use writing::phases::SeatSteps;
use writing::writes::put_seat;

// Whether two delays have passed since the seat entered this round.
fn waited_out<R: Record>(terms: Terms, t: &Tables<R>, seat: u8, round: u16) -> bool
    ensures { result ≡ nat_le (entered_at (setup_of terms t.now) (view terms t.now) seat round + 2 * terms.delay) terms.clock }
{
    let entered = t.entered_at(terms, seat, round as u32);
    entered as u64 + 2 * terms.delay as u64 <= terms.clock as u64
}

// Whether a seat is honest, waits, and its wait is due to end.
pub(crate) fn wait_due<R: Record>(terms: Terms, t: &Tables<R>, seat: u8) -> bool
    ensures { result ≡ wait_due (setup_of terms t.now) (view terms t.now) seat }
{
    let row = t.seat_row(seat);
    terms.is_honest(seat) && row.phase == Phase::Waiting && waited_out(terms, t, seat, row.round)
}

// The wait of a seat is over: it takes its final head, and then votes, or rests if it is past the last round.
pub(crate) fn wake<R: Record>(terms: Terms, t: &mut Tables<R>, seat: u8)
    requires { (seat_at (rows_of t.old) seat).phase ≡ Waiting }
    ensures is { view terms t.new ≡ wakes (setup_of terms t.old) R.Record.kind (view terms t.old) seat }
    ensures same { SameMemory t.new t.old }
{
    let mut row = t.seat_row(seat);
    let head = next_head(terms, &*t, seat);
    let past_last = terms.rounds < row.round;
    row.step(SeatEvent::WaitOver { head, past_last });
    put_seat(t, seat, row);
}
