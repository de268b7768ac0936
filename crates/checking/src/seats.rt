//! Whether a call names a seat that fits, and comes with tables that fit.
ghost use Rattle.std.specs.Prelude.{◌≡◌, ◌<◌, OnOk};
ghost use Rattle.tables.specs.View.{view, setup_of};
ghost use Rattle.checking.specs.Checks.{seat_check, tables_check, honest_check, byzantine_check};

use records::Record;
use rules::fault::BenchFault;
use tables::lent::Tables;
use terms::terms::Terms;

// There has to be such a seat.
pub(crate) fn check_seat(terms: Terms, seat: u8) -> Result<(), BenchFault>
    ensures { result ≡ seat_check terms.n seat }
{
    if seat < terms.n {
        Ok(())
    } else {
        Err(BenchFault::NoSuchSeat)
    }
}

// Every table has to have the length required.
pub(crate) fn check_tables<R: Record>(terms: Terms, t: &Tables<R>) -> Result<(), BenchFault>
    ensures { result ≡ tables_check (setup_of terms t.now) (view terms t.now) }
{
    if t.fits(terms) {
        Ok(())
    } else {
        Err(BenchFault::TableLength)
    }
}

/// The seat has to be honest, and the tables have to fit.
// That an accepted seat is one of the bench's stands here, and in the other public checks but that of planting. A type for such
// a seat would have to hold the bench's numbers too, since `terms.n` is its limit, and every check would answer one in place of
// nothing.
pub fn check_honest<R: Record>(terms: Terms, t: &Tables<R>, seat: u8) -> Result<(), BenchFault>
    ensures is { result ≡ honest_check (setup_of terms t.now) (view terms t.now) seat }
    ensures seat { OnOk result (seat < terms.n) }
{
    check_seat(terms, seat)?;
    if !terms.is_honest(seat) {
        return Err(BenchFault::SeatIsByzantine);
    }
    check_tables(terms, t)
}

// The seat has to be Byzantine.
pub(crate) fn check_byzantine(terms: Terms, seat: u8) -> Result<(), BenchFault>
    ensures { result ≡ byzantine_check terms.n terms.marks seat }
{
    check_seat(terms, seat)?;
    if terms.is_honest(seat) {
        return Err(BenchFault::SeatIsHonest);
    }
    Ok(())
}
