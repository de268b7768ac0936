//! Whether a Byzantine seat can make a block, or sign one.
ghost use Rattle.std.specs.Prelude.{◌≡◌, ◌<◌, false, [], OnOk};
ghost use Rattle.rules.specs.Tables.{has_signed, vote_at};
ghost use Rattle.tables.specs.View.{view, setup_of};
ghost use Rattle.checking.specs.Checks.{place_check, parent_check, plant_check, sign_check};

use crate::seats::{check_byzantine, check_tables};
use holding::notarised::is_quorum;
use holding::signatures::signers;
use records::Record;
use rules::fault::BenchFault;
use tables::lent::Tables;
use terms::terms::Terms;

/// Byzantine `seat` makes its block of this round and edition, on `parent`.
// Seat, round and edition are no `BlockId` yet: they are tested one after another, as a call names them.
pub fn check_plant<R: Record>(
    terms: Terms,
    t: &Tables<R>,
    seat: u8,
    round: u16,
    edition: u8,
    parent: u32,
) -> Result<(), BenchFault>
    ensures { result ≡ plant_check (setup_of terms t.now) (view terms t.now) seat round edition parent }
{
    check_byzantine(terms, seat)?;
    check_place(terms, round, edition)?;
    check_tables(terms, t)?;
    if !t.block_row(parent).made {
        return Err(BenchFault::NoSuchBlock);
    }
    if t.block_row(terms.block_number(seat, round, edition)).made {
        return Err(BenchFault::NothingNew);
    }
    check_parent(terms, t, round, parent)
}

// The round and the edition have to be the bench's.
fn check_place(terms: Terms, round: u16, edition: u8) -> Result<(), BenchFault>
    ensures { result ≡ place_check terms.rounds terms.editions round edition }
{
    if !(1..=terms.rounds).contains(&round) {
        return Err(BenchFault::RoundOutOfRange);
    }
    if edition >= terms.editions {
        return Err(BenchFault::EditionOutOfRange);
    }
    Ok(())
}

// The parent has to be of the round before, and notarised by the signatures that exist; block 0 needs none.
fn check_parent<R: Record>(
    terms: Terms,
    t: &Tables<R>,
    round: u16,
    parent: u32,
) -> Result<(), BenchFault>
    ensures { result ≡ parent_check (setup_of terms t.now) (view terms t.now) round parent }
{
    if terms.round_of(parent) as u64 + 1 != round as u64 {
        return Err(BenchFault::WrongParent);
    }
    if parent == 0 || is_quorum(terms, signers(terms, t, parent)) {
        Ok(())
    } else {
        Err(BenchFault::WrongParent)
    }
}

/// Byzantine `seat` signs `block`.
pub fn check_sign<R: Record>(
    terms: Terms,
    t: &Tables<R>,
    seat: u8,
    block: u32,
) -> Result<(), BenchFault>
    ensures is { result ≡ sign_check (setup_of terms t.now) (view terms t.now) seat block }
    ensures unsigned { OnOk result ((seat < terms.n) × (has_signed (vote_at (setup_of terms t.now) (view terms t.now) seat block) ≡ false)) }
{
    check_byzantine(terms, seat)?;
    check_tables(terms, t)?;
    if block == 0 || !t.block_row(block).made {
        return Err(BenchFault::NoSuchBlock);
    }
    if t.vote_row(terms, seat, block).sent.is_some() {
        return Err(BenchFault::NothingNew);
    }
    Ok(())
}
