//! Writing a row of the tables. A write past the end of a table changes nothing.
//!
//! Each promises `SameMemory` too: that is about the tables before and after, which the type of one value cannot say.
ghost use Rattle.std.specs.Prelude.{◌≡◌, slice_set};
ghost use Rattle.rules.specs.Holding.{receives};
ghost use Rattle.tables.specs.View.{view, rows_of, setup_of, SameMemory};
ghost use Rattle.writing.specs.Writes.{with_block_row, with_record, with_draft, with_seat, with_vote, with_certificate, holds};

use records::Record;
use rules::rows::{BlockRow, CertificateRow, ReceivedRow, SeatRow, VoteRow};
use tables::lent::Tables;
use terms::terms::Terms;

// Writes a row, if the table has that place.
fn put<T: Copy>(rows: &mut [T], at: usize, row: T)
    ensures { rows.new ≡ slice_set rows.old at row }
{
    // By index, since the library does not say what a slice ends as after `get_mut`.
    if at < rows.len() {
        rows[at] = row;
    }
}

/// Writes the row of a block.
pub fn put_block<R: Record>(t: &mut Tables<R>, block: u32, row: BlockRow)
    ensures is { rows_of t.new ≡ with_block_row (rows_of t.old) block row }
    ensures same { SameMemory t.new t.old }
{
    put(&mut *t.blocks, block as usize, row);
}

/// Writes the record of a block.
pub fn put_record<R: Record>(t: &mut Tables<R>, block: u32, record: R)
    ensures is { rows_of t.new ≡ with_record (rows_of t.old) block «record» }
    ensures same { SameMemory t.new t.old }
{
    put(&mut *t.records, block as usize, record);
}

/// Writes the draft of a seat.
pub fn put_draft<R: Record>(t: &mut Tables<R>, seat: u8, draft: Option<R>)
    ensures is { rows_of t.new ≡ with_draft (rows_of t.old) seat draft }
    ensures same { SameMemory t.new t.old }
{
    put(&mut *t.drafts, seat as usize, draft);
}

/// Writes the row of a seat.
pub fn put_seat<R: Record>(t: &mut Tables<R>, seat: u8, row: SeatRow)
    ensures is { rows_of t.new ≡ with_seat (rows_of t.old) seat row }
    ensures same { SameMemory t.new t.old }
{
    put(&mut *t.seats, seat as usize, row);
}

/// Writes the certificate of a seat for the round after `past`.
pub fn put_certificate<R: Record>(
    terms: Terms,
    t: &mut Tables<R>,
    seat: u8,
    past: u16,
    row: CertificateRow,
)
    ensures is { view terms t.new ≡ with_certificate (setup_of terms t.old) (view terms t.old) seat past row }
    ensures same { SameMemory t.new t.old }
{
    put(
        &mut *t.certificates,
        terms.certificate_place(seat, u32::from(past)),
        row,
    );
}

/// A seat signs a block, if it has not yet.
pub fn put_vote<R: Record>(terms: Terms, t: &mut Tables<R>, seat: u8, block: u32)
    ensures is { view terms t.new ≡ with_vote (setup_of terms t.old) (view terms t.old) seat block }
    ensures same { SameMemory t.new t.old }
{
    let old = t.vote_row(terms, seat, block);
    let row = VoteRow {
        sent: Some(old.sent.unwrap_or(terms.clock)),
    };
    put(&mut *t.votes, terms.seat_place(block, seat), row);
}

/// A seat receives signatures on a block.
pub fn receive<R: Record>(terms: Terms, t: &mut Tables<R>, seat: u8, block: u32, signers: u16)
    ensures is { view terms t.new ≡ receives (setup_of terms t.old) (view terms t.old) seat block signers }
    ensures same { SameMemory t.new t.old }
{
    let old = t.received_row(terms, seat, block);
    let row = ReceivedRow {
        signers: old.signers | signers,
        ..old
    };
    put(&mut *t.received, terms.seat_place(block, seat), row);
}

/// A seat holds a block from now on.
pub fn hold<R: Record>(terms: Terms, t: &mut Tables<R>, seat: u8, block: u32)
    ensures is { view terms t.new ≡ holds (setup_of terms t.old) (view terms t.old) seat block }
    ensures same { SameMemory t.new t.old }
{
    let old = t.received_row(terms, seat, block);
    let row = ReceivedRow { held: true, ..old };
    put(&mut *t.received, terms.seat_place(block, seat), row);
}
