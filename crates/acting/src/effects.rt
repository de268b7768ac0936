//! What an accepted call does.
ghost use Rattle.std.specs.Prelude.{◌≡◌, ◌<◌, false};
ghost use Rattle.rules.specs.Tables.{has_signed, vote_at};
ghost use Rattle.tables.specs.View.{view, setup_of, SameMemory};
ghost use Rattle.acting.specs.Effects.{block_taken, message_taken, planted, signed};

use holding::signatures::signers;
use holding::taking::take_in;
use numbers::seat_set::SeatSet;
use reacting::reaction::react;
use records::Record;
use rules::rows::BlockRow;
use tables::lent::Tables;
use terms::terms::Terms;
use writing::writes::{put_block, put_record, put_vote, receive};

// A seat takes a block in, and reacts.
pub(crate) fn take_block<R: Record>(terms: Terms, t: &mut Tables<R>, seat: u8, block: u32)
    ensures is { view terms t.new ≡ block_taken (setup_of terms t.old) R.Record.kind (view terms t.old) seat block }
    ensures same { SameMemory t.new t.old }
{
    take_in(terms, t, seat, block);
    react(terms, t, seat);
}

// A seat takes a block in with signatures on it, and reacts.
pub(crate) fn take_message<R: Record>(
    terms: Terms,
    t: &mut Tables<R>,
    seat: u8,
    block: u32,
    signers: u16,
)
    ensures is { view terms t.new ≡ message_taken (setup_of terms t.old) R.Record.kind (view terms t.old) seat block signers }
    ensures same { SameMemory t.new t.old }
{
    take_in(terms, t, seat, block);
    receive(terms, t, seat, block, signers);
    react(terms, t, seat);
}

// A seat makes a block on a parent, with all signatures that exist on it, and takes it in.
pub(crate) fn plant_block<R: Record>(
    terms: Terms,
    t: &mut Tables<R>,
    seat: u8,
    block: u32,
    parent: u32,
    posted: R,
)
    ensures is { view terms t.new ≡ planted (setup_of terms t.old) (view terms t.old) seat block parent posted }
    ensures same { SameMemory t.new t.old }
{
    let carried = signers(terms, t, parent);
    put_block(
        t,
        block,
        BlockRow {
            made: true,
            parent,
            carried,
        },
    );
    put_record(t, block, posted);
    take_in(terms, t, seat, block);
}

// A seat signs a block that it has not signed, takes it in and receives its own signature.
pub(crate) fn sign_block<R: Record>(terms: Terms, t: &mut Tables<R>, seat: u8, block: u32)
    requires { (seat < terms.n) × (has_signed (vote_at (setup_of terms t.old) (view terms t.old) seat block) ≡ false) }
    ensures is { view terms t.new ≡ signed (setup_of terms t.old) (view terms t.old) seat block }
    ensures same { SameMemory t.new t.old }
{
    put_vote(terms, t, seat, block);
    take_in(terms, t, seat, block);
    receive(terms, t, seat, block, SeatSet::only(seat).bits());
}
