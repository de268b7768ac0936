//! A roster before its bench is opened.
ghost use Rattle.std.specs.Prelude.{◌≡◌, ◌*◌, ◌^◌, ◌<◌, ◌≤◌, true, is_err, Some, None, MatchResult, count_ones};
ghost use Rattle.roster.specs.Marks.{start_refusal, mark_answer, marks_after, is_honest};

use crate::fault::RosterFault;
use numbers::limits::MOST_SEATS;
use numbers::seat_set::SeatSet;

/// The seats, numbered from 0, and which of them are Byzantine.
/// Fewer than half of them are, always: the type says so, so nothing that takes a roster has to ask.
#[derive(Drop, PartialEq, Eq, Debug)]
pub struct Roster {
    n: u8,
    marks: SeatSet,
    ghost fewer_than_half: { 2 * count_ones marks < n },
    ghost seats_only: { marks < 2 ^ n },
    ghost sixteen: { n ≤ 16 },
}

impl Roster {
    /// A roster of n honest seats.
    pub fn start(n: u8) -> Result<Roster, RosterFault>
        ensures { MatchResult result (λ t. (start_refusal n ≡ None) × (t.n ≡ n) × (t.marks ≡ 0)) (λ e. start_refusal n ≡ Some e) }
    {
        if !(1..=MOST_SEATS).contains(&n) {
            return Err(RosterFault::SeatCount);
        }
        Ok(Roster {
            n,
            marks: SeatSet::default(),
        })
    }

    /// Marks a seat Byzantine. A refusal leaves the roster as it was.
    pub fn mark(&mut self, seat: u8) -> Result<(), RosterFault>
        ensures answer { result ≡ mark_answer self.old.n self.old.marks seat }
        ensures seats { self.new.n ≡ self.old.n }
        ensures marks { self.new.marks ≡ marks_after self.old.n self.old.marks seat }
        ensures refusal_changes_nothing { is_err result ≡ true → self.new ≡ self.old }
    {
        if seat >= self.n {
            return Err(RosterFault::NoSuchSeat);
        }
        if self.marks.contains(seat) {
            return Err(RosterFault::AlreadyByzantine);
        }
        if 2 * (self.marks.count() + 1) >= self.n {
            return Err(RosterFault::TooManyByzantine);
        }
        self.marks = self.marks.with(seat);
        Ok(())
    }

    /// How many seats there are.
    pub fn seat_count(&self) -> u8
        ensures { result ≡ self.now.n }
    {
        self.n
    }

    /// The Byzantine seats.
    pub fn byzantine_seats(&self) -> SeatSet
        ensures { result ≡ self.now.marks }
    {
        self.marks
    }

    /// How many seats are Byzantine: fewer than half.
    pub fn byzantine_count(&self) -> u8
        ensures value { result ≡ count_ones self.now.marks }
        ensures fewer_than_half { 2 * result < self.now.n }
    {
        self.marks.count()
    }

    /// Whether a seat of the roster is honest; false where there is no such seat.
    pub fn is_honest(&self, seat: u8) -> bool
        ensures { result ≡ is_honest self.now.n self.now.marks seat }
    {
        seat < self.n && !self.marks.contains(seat)
    }
}
