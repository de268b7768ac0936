//! The tables of a bench, in memory that its caller lends.
use rules::rows::{BlockRow, CertificateRow, ReceivedRow, SeatRow, VoteRow};

/// Eight tables; R is the record type. Each is memory that the caller lends, so that a bench needs no heap.
// Tables of one length stay apart: what rows there are is promised to whoever lends them, and R is the caller's type.
// The numbers of the bench, `Terms`, go beside the tables and not in one struct with them. The tables are lent anew with each
// call, shared to what reads and alone to what drives, so there would have to be two such structs. And the check has no proof yet
// of reading a row through a `&` to a struct that holds the loan: methods of such a struct could only call a function of both again.
#[derive(Drop)]
pub struct Tables<'a, R> {
    /// For each block.
    pub blocks: &'a mut [BlockRow],
    /// For each block.
    pub records: &'a mut [R],
    /// For each round the ranks of the seats; the row of round r is r - 1.
    pub orders: &'a mut [[u8; 16]],
    /// For each seat the record that it is to propose, if there is one.
    pub drafts: &'a mut [Option<R>],
    /// For each seat.
    pub seats: &'a mut [SeatRow],
    /// For each block and seat; with n seats the row of block b and seat s is b * n + s.
    pub received: &'a mut [ReceivedRow],
    /// Likewise.
    pub votes: &'a mut [VoteRow],
    /// For each seat and round; with R rounds the row of seat s and round r is s * R + r - 1.
    pub certificates: &'a mut [CertificateRow],
}
