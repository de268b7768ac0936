//! Whether a message can be delivered: it was sent, to an honest seat that does not have all of it.
ghost use Rattle.std.specs.Prelude.{◌≡◌, ◌<◌, OnOk};
ghost use Rattle.tables.specs.View.{view, setup_of};
ghost use Rattle.checking.specs.Checks.{block_check, vote_check, certificate_check};

use crate::seats::{check_honest, check_seat};
use holding::messages::{has_certificate, has_vote};
use holding::sent::certificate_sent;
use records::Record;
use rules::fault::BenchFault;
use tables::lent::Tables;
use terms::terms::Terms;

/// Block `block` to `seat`.
pub fn check_block<R: Record>(
    terms: Terms,
    t: &Tables<R>,
    seat: u8,
    block: u32,
) -> Result<(), BenchFault>
    ensures is { result ≡ block_check (setup_of terms t.now) (view terms t.now) seat block }
    ensures seats { OnOk result (seat < terms.n) }
{
    check_honest(terms, t, seat)?;
    if !t.block_row(block).made {
        return Err(BenchFault::NoSuchBlock);
    }
    if t.is_held(terms, seat, block) {
        return Err(BenchFault::NothingNew);
    }
    Ok(())
}

/// The vote of `voter` for `block`, to `seat`.
pub fn check_vote<R: Record>(
    terms: Terms,
    t: &Tables<R>,
    voter: u8,
    seat: u8,
    block: u32,
) -> Result<(), BenchFault>
    ensures is { result ≡ vote_check (setup_of terms t.now) (view terms t.now) voter seat block }
    ensures seats { OnOk result ((voter < terms.n) × (seat < terms.n)) }
{
    check_seat(terms, voter)?;
    check_honest(terms, t, seat)?;
    if !t.block_row(block).made {
        return Err(BenchFault::NoSuchBlock);
    }
    if t.vote_row(terms, voter, block).sent.is_none() {
        return Err(BenchFault::NeverSent);
    }
    if has_vote(terms, t, voter, block, seat) {
        return Err(BenchFault::NothingNew);
    }
    Ok(())
}

/// The certificate of `sender` for a round, to `seat`.
pub fn check_certificate<R: Record>(
    terms: Terms,
    t: &Tables<R>,
    sender: u8,
    seat: u8,
    round: u16,
) -> Result<(), BenchFault>
    ensures is { result ≡ certificate_check (setup_of terms t.now) (view terms t.now) sender seat round }
    ensures seats { OnOk result (seat < terms.n) }
{
    check_seat(terms, sender)?;
    check_honest(terms, t, seat)?;
    if !(1..=terms.rounds).contains(&round) || !certificate_sent(terms, t, sender, round - 1) {
        return Err(BenchFault::NeverSent);
    }
    let certificate = t.certificate_after(terms, sender, round - 1);
    if has_certificate(terms, t, certificate.block, certificate.signers, seat) {
        return Err(BenchFault::NothingNew);
    }
    Ok(())
}
