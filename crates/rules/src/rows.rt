//! The rows of the tables that a bench keeps. The default row is the blank one, which also stands for what lies past a table's end.
//!
//! Sets of seats lie in the rows as numbers of 16 bits, and go from row to row and are counted as such; where one seat is asked for,
//! `numbers::seat_set::SeatSet` takes them apart. As the sets themselves they cannot lie there: the check has no proof yet of code that
//! hands a row on and uses it again where one of its fields is such a set.

use std::mem::size_of;

/// What a seat does in its round.
#[derive(Clone, Copy, PartialEq, Eq, Debug, Default, Drop)]
pub enum Phase {
    /// It has entered the round and takes messages in.
    Waiting,
    /// Its wait is over: it votes, and leaves when it holds a notarisation of the round.
    Voting,
    /// It is past the last round.
    #[default]
    Resting,
}

/// One row for each block number.
#[derive(Clone, Copy, PartialEq, Eq, Debug, Default, Drop)]
pub struct BlockRow {
    /// The number of the block that it stands on, which is its place in the tables: they are lent, so there is no heap for a `Box`.
    pub parent: u32,
    /// The signatures on the parent that it carries: bit s is seat s.
    pub carried: u16,
    /// Whether there is such a block. A flag, since it fits in the 8 bytes of a row: an `Option` of the others takes 12,
    /// and the caller lends a row for each block that there can be.
    pub made: bool,
}

const _: () = prove!(size_of::<BlockRow>() == 8);

/// One row for each seat.
#[derive(Clone, Copy, PartialEq, Eq, Debug, Default, Drop)]
pub struct SeatRow {
    pub round: u16,
    pub phase: Phase,
    /// The final head: this block and its ancestors are final at the seat.
    pub head: u32,
}

/// One row for each block and seat: what the seat has received of the block.
#[derive(Clone, Copy, PartialEq, Eq, Debug, Default, Drop)]
pub struct ReceivedRow {
    /// Whether the seat holds the block. Signatures are kept whether it does or not, so neither field tells the other.
    pub held: bool,
    /// The signatures on the block that the seat has received: bit s is seat s.
    pub signers: u16,
}

/// One row for each block and seat: the seat's signature on the block.
#[derive(Clone, Copy, PartialEq, Eq, Debug, Default, Drop)]
pub struct VoteRow {
    /// The tick at which the seat signed the block, if it has.
    pub sent: Option<u32>,
}

/// One row for each seat and round: the certificate with which the seat left the round.
#[derive(Clone, Copy, PartialEq, Eq, Debug, Default, Drop)]
pub struct CertificateRow {
    /// The notarised block of the round that it names.
    pub block: u32,
    /// The signatures on that block that it has: bit s is seat s.
    pub signers: u16,
    /// The tick at which it was sent, and the next round entered.
    pub tick: u32,
}
