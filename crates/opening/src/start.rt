//! The tables that a bench starts from.
ghost use Rattle.std.specs.Prelude.{◌≡◌, true, []};
ghost use Rattle.rules.specs.Setup.{setup_with};
ghost use Rattle.rules.specs.Tables.{fits as fits_of};
ghost use Rattle.rules.specs.Opening.{opened};
ghost use Rattle.tables.specs.View.{rows_of, setup_of, SameMemory};
ghost use Rattle.terms.specs.Numbers.{bench_of_terms};
ghost use Rattle.opening.specs.Stages.{without_blocks, seats_entered, first_held, first_proposal, first_proposals, SamePlaces};

use crate::fills::fill_orders;
use orders::Beacon;
use records::Record;
use rules::rows::{BlockRow, CertificateRow, Phase, ReceivedRow, SeatRow, VoteRow};
use tables::lent::Tables;
use terms::terms::Terms;
use writing::writes::{hold, put_block, put_record};

// Block 0, and the blocks of round 1, which stand on it.
const FIRST_BLOCK: BlockRow = BlockRow {
    made: true,
    parent: 0,
    carried: 0,
};

// No block, and nothing received or signed of any block.
fn clear_blocks<R: Record>(t: &mut Tables<R>)
    ensures is { rows_of t.new ≡ without_blocks R.Record.kind (rows_of t.old) }
    ensures same { SamePlaces t.new t.old }
{
    let first = R::first();
    t.blocks.fill(BlockRow::default());
    t.records.fill_with(|| first);
    t.received.fill(ReceivedRow::default());
    t.votes.fill(VoteRow::default());
}

// All seats enter round 1, without drafts and certificates.
fn enter_seats<R: Record>(t: &mut Tables<R>)
    ensures is { rows_of t.new ≡ seats_entered (rows_of t.old) }
    ensures same { SamePlaces t.new t.old }
{
    t.drafts.fill(None);
    t.seats.fill(SeatRow {
        round: 1,
        phase: Phase::Waiting,
        head: 0,
    });
    t.certificates.fill(CertificateRow::default());
}

// All seats hold block 0.
#[tactic(auto, unfolding(crate::specs::Stages::first_held, rules::specs::Loops::writes))]
fn hold_first<R: Record>(terms: Terms, t: &mut Tables<R>)
    ensures is { rows_of t.new ≡ first_held (rows_of t.old) terms.n }
    ensures same { SameMemory t.new t.old }
{
    for seat in 0..terms.n {
        hold(terms, &mut *t, seat, 0);
    }
}

// The block of a seat in round 1, if it is honest: it stands on block 0, has the idle record, and the seat holds it.
fn propose_first<R: Record>(terms: Terms, t: &mut Tables<R>, seat: u8)
    ensures is { rows_of t.new ≡ first_proposal (setup_with (bench_of_terms terms) []) R.Record.kind (rows_of t.old) seat }
    ensures same { SameMemory t.new t.old }
{
    if terms.is_honest(seat) {
        let own = terms.own_block(seat, 1);
        put_block(&mut *t, own, FIRST_BLOCK);
        put_record(&mut *t, own, R::first().idle());
        hold(terms, &mut *t, seat, own);
    }
}

// The blocks of all honest seats in round 1.
#[tactic(auto, unfolding(crate::specs::Stages::first_proposals, rules::specs::Loops::writes))]
fn propose_all<R: Record>(terms: Terms, t: &mut Tables<R>)
    ensures is { rows_of t.new ≡ first_proposals (setup_with (bench_of_terms terms) []) R.Record.kind (rows_of t.old) terms.n }
    ensures same { SameMemory t.new t.old }
{
    for seat in 0..terms.n {
        propose_first(terms, &mut *t, seat);
    }
}

// Fills all tables of a new bench, whatever they held. They have the lengths that it requires.
pub(crate) fn fill_tables<R: Record, B: Beacon>(terms: Terms, beacon: &B, t: &mut Tables<R>)
    requires { fits_of (setup_of terms t.old) (rows_of t.old) ≡ true }
    ensures is { rows_of t.new ≡ opened (bench_of_terms terms) (B.ranking beacon.now) R.Record.kind }
    ensures same { SamePlaces t.new t.old }
{
    fill_orders(beacon, &mut *t.orders);
    clear_blocks(&mut *t);
    enter_seats(&mut *t);
    put_block(&mut *t, 0, FIRST_BLOCK);
    hold_first(terms, &mut *t);
    propose_all(terms, t);
}
