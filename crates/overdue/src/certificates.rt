//! Certificates. A round is named by the one before it here, `past`, since there is none of round 0.
ghost use Rattle.std.specs.Prelude.{◌≡◌};
ghost use Rattle.tables.specs.View.{view, setup_of};
ghost use Rattle.overdue.specs.Messages.{certificate_late, certificate_lacking};

use crate::clock::is_late;
use holding::messages::has_certificate;
use holding::sent::certificate_sent;
use records::Record;
use tables::lent::Tables;
use terms::terms::Terms;

// Whether an honest seat has sent a certificate of the round after `past`, and it has to have arrived by the next tick.
pub(crate) fn certificate_late<R: Record>(terms: Terms, t: &Tables<R>, seat: u8, past: u16) -> bool
    ensures { result ≡ certificate_late (setup_of terms t.now) (view terms t.now) seat past }
{
    certificate_sent(terms, t, seat, past)
        && is_late(terms, t.certificate_after(terms, seat, past).tick)
}

// Whether a receiver is honest and lacks part of what that certificate of a seat says.
pub(crate) fn lacks_certificate<R: Record>(
    terms: Terms,
    t: &Tables<R>,
    seat: u8,
    past: u16,
    receiver: u8,
) -> bool
    ensures { result ≡ certificate_lacking (setup_of terms t.now) (view terms t.now) seat past receiver }
{
    let row = t.certificate_after(terms, seat, past);
    terms.is_honest(receiver) && !has_certificate(terms, t, row.block, row.signers, receiver)
}
