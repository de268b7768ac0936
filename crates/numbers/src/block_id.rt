//! What a block's number says.

/// The round of a block, the seat that owns it, and which of the owner's editions it is.
#[derive(Clone, Copy, PartialEq, Eq, Debug)]
pub struct BlockId {
    pub round: u16,
    pub owner: u8,
    pub edition: u8,
}
