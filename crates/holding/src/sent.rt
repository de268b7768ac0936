//! Whether a message was sent.
ghost use Rattle.std.specs.Prelude.{◌≡◌};
ghost use Rattle.rules.specs.Overdue.{certificate_sent};
ghost use Rattle.tables.specs.View.{view, setup_of};

use records::Record;
use tables::lent::Tables;
use terms::terms::Terms;

/// Whether a seat is honest and has sent a certificate of the round after `past`: it has left that round.
pub fn certificate_sent<R: Record>(terms: Terms, t: &Tables<R>, seat: u8, past: u16) -> bool
    ensures { result ≡ certificate_sent (setup_of terms t.now) (view terms t.now) seat past }
{
    terms.is_honest(seat) && past as u32 + 1 < t.seat_row(seat).round as u32
}
