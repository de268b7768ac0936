//! The numbers of a bench's blocks, and which of its seats are honest.
//!
//! Every number has an answer here, as in the rules, since the tables can hold any. `numbers::size::Size` numbers blocks for those
//! who have no bench, and answers None outside its limits.
ghost use Rattle.std.specs.Prelude.{◌≡◌, List, [], ℕ, ◌+◌, ◌*◌, ◌<◌, ◌≤◌};
ghost use Rattle.numbers.specs.Numbering.{number_of};
ghost use Rattle.roster.specs.Marks.{is_honest};
ghost use Rattle.rules.specs.Setup.{setup_with, block_round, block_owner, own_block, round_start, block_rows};
ghost use Rattle.terms.specs.Numbers.{bench_of_terms};

use crate::terms::Terms;
use numbers::seat_set::SeatSet;
use std::ops::Range;

impl Terms {
    /// The round of a block; 0 for block 0.
    pub fn round_of(self, block: u32) -> u32
        ensures { result ≡ block_round (setup_with (bench_of_terms self) []) block }
    {
        if block == 0 {
            return 0;
        }
        1 + (block - 1) / self.editions as u32 / self.n as u32
    }

    /// The seat that owns a block.
    pub fn owner_of(self, block: u32) -> u8
        ensures is { result ≡ block_owner (setup_with (bench_of_terms self) []) block }
        ensures seat { result < self.n }
    {
        (block.saturating_sub(1) / self.editions as u32 % self.n as u32) as u8
    }

    /// The number of a seat's block in a round and of an edition.
    pub fn block_number(self, seat: u8, round: u16, edition: u8) -> u32
        ensures { result ≡ number_of self.n self.editions round seat edition }
    {
        let past = round.saturating_sub(1) as u32;
        1 + (past * self.n as u32 + seat as u32) * self.editions as u32 + edition as u32
    }

    /// The block that an honest seat proposes in a round: its first edition.
    pub fn own_block(self, seat: u8, round: u16) -> u32
        ensures { result ≡ own_block (setup_with (bench_of_terms self) []) seat round }
    {
        self.block_number(seat, round, 0)
    }

    /// How many blocks a round can have.
    pub fn round_width(self) -> u8
        ensures is { result ≡ self.n * self.editions }
        ensures most { result ≤ 128 }
    {
        self.n * self.editions
    }

    /// The first block of a round.
    pub fn round_start(self, round: u16) -> u32
        ensures is { (rows : List (List ℕ)) → result ≡ round_start (setup_with (bench_of_terms self) rows) round }
        ensures most { result ≤ 8388608 }
    {
        if round == 0 {
            return 0;
        }
        1 + (round - 1) as u32 * self.round_width() as u32
    }

    /// The blocks of a round from 1 on, by their numbers.
    pub fn blocks_of(self, round: u16) -> Range<u32>
        ensures first { (rows : List (List ℕ)) → result.start ≡ round_start (setup_with (bench_of_terms self) rows) round }
        ensures count { result.end ≡ result.start + self.n * self.editions }
        ensures of_round { (block : ℕ) → 1 ≤ round → result.start ≤ block → block < result.end → block_round (setup_with (bench_of_terms self) []) block ≡ round }
    {
        let first = self.round_start(round);
        first..first + self.round_width() as u32
    }

    /// How many blocks there can be, block 0 included.
    // As `Size::block_count`, as the length of a table: a bench has these numbers and no `Size`.
    pub fn block_rows(self) -> usize
        ensures is { result ≡ block_rows (setup_with (bench_of_terms self) []) }
        ensures most { result ≤ 32769 }
    {
        1 + self.rounds as usize * self.n as usize * self.editions as usize
    }

    /// The place of a block and a seat in a table that has a row for each block and seat.
    pub fn seat_place(self, block: u32, seat: u8) -> usize
        ensures { result ≡ block * self.n + seat }
    {
        block as usize * self.n as usize + seat as usize
    }

    /// The place of a seat and the round after `past` in the table of certificates.
    pub fn certificate_place(self, seat: u8, past: u32) -> usize
        ensures { result ≡ seat * self.rounds + past }
    {
        seat as usize * self.rounds as usize + past as usize
    }

    /// Whether a seat is one of the bench's, and not Byzantine.
    // As `Roster::is_honest`: a bench has the numbers of its roster and not the roster itself.
    pub fn is_honest(self, seat: u8) -> bool
        ensures { result ≡ is_honest self.n self.marks seat }
    {
        seat < self.n && !SeatSet::from(self.marks).contains(seat)
    }
}
