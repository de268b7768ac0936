//! The proposal of a seat.
ghost use Rattle.std.specs.Prelude.{◌≡◌};
ghost use Rattle.rules.specs.Seat.{proposed_record, draft_left, propose as propose_of};
ghost use Rattle.tables.specs.View.{view, setup_of, SameMemory};

use holding::taking::take_in;
use records::Record;
use rules::rows::BlockRow;
use tables::lent::Tables;
use terms::terms::Terms;
use writing::writes::{put_block, put_draft, put_record};

// The record of a proposal on a block with the record `parent`: the draft if there is one that follows, else the idle
// record.
fn proposed_record<R: Record>(draft: Option<R>, parent: &R) -> R
    ensures { result ≡ proposed_record R.Record.kind draft parent.now }
{
    draft
        .filter(|d| d.follows(parent))
        .unwrap_or_else(|| parent.idle())
}

// What is left of the draft: one that was used is cleared.
fn draft_left<R: Record>(draft: Option<R>, parent: &R) -> Option<R>
    ensures { result ≡ draft_left R.Record.kind draft parent.now }
{
    draft.filter(|d| !d.follows(parent))
}

// A seat makes its block of a round on a parent, with the signatures on it that it has received, and takes it in.
pub(crate) fn propose<R: Record>(terms: Terms, t: &mut Tables<R>, seat: u8, round: u16, parent: u32)
    ensures is { view terms t.new ≡ propose_of (setup_of terms t.old) R.Record.kind (view terms t.old) seat round parent }
    ensures same { SameMemory t.new t.old }
    ensures seats { t.new.seats.now ≡ t.old.seats.now }
{
    let own = terms.own_block(seat, round);
    let carried = t.signers_at(terms, seat, parent);
    let above = t.record_at(parent);
    let draft = t.draft_at(seat);
    put_draft(&mut *t, seat, draft_left(draft, &above));
    put_block(
        &mut *t,
        own,
        BlockRow {
            made: true,
            parent,
            carried,
        },
    );
    put_record(&mut *t, own, proposed_record(draft, &above));
    take_in(terms, &mut *t, seat, own);
}
