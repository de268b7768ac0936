//! The calls: each is checked, and then carried out. A refused call changes nothing.
ghost use Rattle.rules.specs.Runs.Call.{offer_call, block_call, vote_call, certificate_call, plant_call, sign_call};
ghost use Rattle.acting.specs.Calls.{ByTheRules};

use crate::effects::{plant_block, sign_block, take_block, take_message};
use checking::byzantine::{check_plant, check_sign};
use checking::messages::{check_block, check_certificate, check_vote};
use checking::seats::check_honest;
use numbers::seat_set::SeatSet;
use records::Record;
use rules::fault::BenchFault;
use tables::lent::Tables;
use terms::terms::Terms;
use writing::writes::put_draft;

/// An honest seat is offered a draft, in place of the one it has.
#[tactic(auto, using(crate::proofs::ByCheck::offer_by_check))]
pub fn offer<R: Record>(
    terms: Terms,
    t: &mut Tables<R>,
    seat: u8,
    draft: R,
) -> Result<(), BenchFault>
    ensures { ByTheRules R.Record.kind (offer_call seat draft) result terms terms t.old t.new }
{
    check_honest(terms, t, seat)?;
    put_draft(t, seat, Some(draft));
    Ok(())
}

/// An honest seat gets a block, and reacts.
#[tactic(auto, using(crate::proofs::ByCheck::block_by_check))]
pub fn deliver_block<R: Record>(
    terms: Terms,
    t: &mut Tables<R>,
    seat: u8,
    block: u32,
) -> Result<(), BenchFault>
    ensures { ByTheRules R.Record.kind (block_call seat block) result terms terms t.old t.new }
{
    check_block(terms, t, seat, block)?;
    take_block(terms, t, seat, block);
    Ok(())
}

/// An honest seat gets a voter's vote for a block, with the block, and reacts.
#[tactic(auto, using(crate::proofs::ByCheck::vote_by_check, crate::proofs::ByCheck::one_signer))]
pub fn deliver_vote<R: Record>(
    terms: Terms,
    t: &mut Tables<R>,
    voter: u8,
    seat: u8,
    block: u32,
) -> Result<(), BenchFault>
    ensures { ByTheRules R.Record.kind (vote_call voter seat block) result terms terms t.old t.new }
{
    check_vote(terms, t, voter, seat, block)?;
    take_message(terms, t, seat, block, SeatSet::only(voter).bits());
    Ok(())
}

/// An honest seat gets a sender's certificate for a round, with its block and its signatures, and reacts.
#[tactic(auto, using(crate::proofs::ByCheck::certificate_by_check))]
pub fn deliver_certificate<R: Record>(
    terms: Terms,
    t: &mut Tables<R>,
    sender: u8,
    seat: u8,
    round: u16,
) -> Result<(), BenchFault>
    ensures { ByTheRules R.Record.kind (certificate_call sender seat round) result terms terms t.old t.new }
{
    check_certificate(terms, t, sender, seat, round)?;
    let certificate = t.certificate_after(terms, sender, round.saturating_sub(1));
    take_message(terms, t, seat, certificate.block, certificate.signers);
    Ok(())
}

/// A Byzantine seat makes a block of a round and an edition, on a parent and with a record.
#[tactic(auto, using(crate::proofs::ByCheck::plant_by_check))]
pub fn plant<R: Record>(
    terms: Terms,
    t: &mut Tables<R>,
    seat: u8,
    round: u16,
    edition: u8,
    parent: u32,
    posted: R,
) -> Result<(), BenchFault>
    ensures { ByTheRules R.Record.kind (plant_call seat round edition parent posted) result terms terms t.old t.new }
{
    check_plant(terms, t, seat, round, edition, parent)?;
    let block = terms.block_number(seat, round, edition);
    plant_block(terms, t, seat, block, parent, posted);
    Ok(())
}

/// A Byzantine seat signs a block.
#[tactic(auto, using(crate::proofs::ByCheck::sign_by_check))]
pub fn sign<R: Record>(
    terms: Terms,
    t: &mut Tables<R>,
    seat: u8,
    block: u32,
) -> Result<(), BenchFault>
    ensures { ByTheRules R.Record.kind (sign_call seat block) result terms terms t.old t.new }
{
    check_sign(terms, t, seat, block)?;
    sign_block(terms, t, seat, block);
    Ok(())
}
