//! What happens to a seat.

/// An event that can move a seat on.
#[derive(Clone, Copy, Drop)]
pub enum SeatEvent {
    /// Its wait is over: this is its final head now, and whether it is past the last round.
    // `past_last` says nothing of the head, which is taken either way: it says what the seat does next.
    WaitOver { head: u32, past_last: bool },
    /// It has left its round, and enters the next.
    Left { next: u16 },
}
