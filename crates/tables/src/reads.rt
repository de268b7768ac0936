//! Reading the tables. What lies past the end of a table is a blank row.
ghost use Rattle.std.specs.Prelude.{◌≡◌, suc};
ghost use Rattle.rules.specs.Tables.{block_at, record_at, draft_at, seat_at, received_at, vote_at, certificate_at, entered_at, valid};
ghost use Rattle.tables.specs.View.{view, rows_of, setup_of};

use crate::lent::Tables;
use crate::rows::row_or;
use records::Record;
use rules::rows::{BlockRow, CertificateRow, ReceivedRow, SeatRow, VoteRow};
use terms::terms::Terms;

impl<R: Record> Tables<'_, R> {
    /// The row of a block.
    pub fn block_row(&self, block: u32) -> BlockRow
        ensures { result ≡ block_at (rows_of self.now) block }
    {
        row_or(&*self.blocks, block as usize, BlockRow::default())
    }

    /// The record of a block.
    pub fn record_at(&self, block: u32) -> R
        ensures { result ≡ record_at R.Record.kind (rows_of self.now) block }
    {
        row_or(&*self.records, block as usize, R::first())
    }

    /// Whether a block is valid: its record follows its parent's.
    pub fn is_valid(&self, block: u32) -> bool
        ensures { result ≡ valid R.Record.kind (rows_of self.now) block }
    {
        let parent = self.block_row(block).parent;
        self.record_at(block).follows(&self.record_at(parent))
    }

    /// The record that a seat is to propose, if there is one.
    pub fn draft_at(&self, seat: u8) -> Option<R>
        ensures { result ≡ draft_at (rows_of self.now) seat }
    {
        row_or(&*self.drafts, seat as usize, None)
    }

    /// The row of a seat.
    pub fn seat_row(&self, seat: u8) -> SeatRow
        ensures { result ≡ seat_at (rows_of self.now) seat }
    {
        row_or(&*self.seats, seat as usize, SeatRow::default())
    }

    /// What a seat has received of a block.
    pub fn received_row(&self, terms: Terms, seat: u8, block: u32) -> ReceivedRow
        ensures { result ≡ received_at (setup_of terms self.now) (view terms self.now) seat block }
    {
        row_or(
            &*self.received,
            terms.seat_place(block, seat),
            ReceivedRow::default(),
        )
    }

    /// The signature of a seat on a block.
    pub fn vote_row(&self, terms: Terms, seat: u8, block: u32) -> VoteRow
        ensures { result ≡ vote_at (setup_of terms self.now) (view terms self.now) seat block }
    {
        row_or(
            &*self.votes,
            terms.seat_place(block, seat),
            VoteRow::default(),
        )
    }

    /// The certificate with which a seat left the round after `past`. There is none of round 0.
    pub fn certificate_after(&self, terms: Terms, seat: u8, past: u16) -> CertificateRow
        ensures { result ≡ certificate_at (setup_of terms self.now) (view terms self.now) seat (suc past) }
    {
        self.certificate_past(terms, seat, u32::from(past))
    }

    // The same, with the round as wide as a block gives it.
    fn certificate_past(&self, terms: Terms, seat: u8, past: u32) -> CertificateRow
        ensures { result ≡ certificate_at (setup_of terms self.now) (view terms self.now) seat (suc past) }
    {
        row_or(
            &*self.certificates,
            terms.certificate_place(seat, past),
            CertificateRow::default(),
        )
    }

    /// The tick at which a seat entered a round: that of its certificate of the round before, and 0 for round 1.
    pub fn entered_at(&self, terms: Terms, seat: u8, round: u32) -> u32
        ensures { result ≡ entered_at (setup_of terms self.now) (view terms self.now) seat round }
    {
        match round.checked_sub(2) {
            Some(past) => self.certificate_past(terms, seat, past).tick,
            None => 0,
        }
    }

    /// Whether a seat holds a block.
    pub fn is_held(&self, terms: Terms, seat: u8, block: u32) -> bool
        ensures { result ≡ (received_at (setup_of terms self.now) (view terms self.now) seat block).held }
    {
        self.received_row(terms, seat, block).held
    }

    /// The signatures on a block that a seat has received.
    pub fn signers_at(&self, terms: Terms, seat: u8, block: u32) -> u16
        ensures { result ≡ (received_at (setup_of terms self.now) (view terms self.now) seat block).signers }
    {
        self.received_row(terms, seat, block).signers
    }
}
