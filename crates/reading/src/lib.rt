//! Reading where a seat stands, and its final chain.
#![tactic(auto)]

ghost use Rattle.std.specs.Prelude.{◌≡◌, length};
ghost use Rattle.tables.specs.View.{view, setup_of};
ghost use Rattle.reading.specs.Reading.{status_answer, chain_answer, chain_of, buffer_after};

use checking::seats::check_honest;
use records::Record;
use rules::fault::BenchFault;
use rules::rows::SeatRow;
use tables::lent::Tables;
use terms::terms::Terms;

/// The round, the phase and the final head of an honest seat.
pub fn read_status<R: Record>(terms: Terms, t: &Tables<R>, seat: u8) -> Result<SeatRow, BenchFault>
    ensures { result ≡ status_answer (setup_of terms t.now) (view terms t.now) seat }
{
    check_honest(terms, t, seat)?;
    Ok(t.seat_row(seat))
}

// Fills the places with the chain of as many blocks of which `head` is the newest, the oldest first.
#[tactic(auto, using(crate::proofs::Chain::chain_done))]
fn write_chain<R: Record>(t: &Tables<R>, head: u32, chain: &mut [u32])
    ensures { chain.new ≡ chain_of t.now.blocks.now (length chain.old) head }
{
    let mut block = head;
    for place in chain.iter_mut() {
        *place = block;
        block = t.block_row(block).parent;
    }
    chain.reverse();
}

/// The final chain of an honest seat, the oldest block first, to the start of the buffer; answers how many blocks it has.
// Into the caller's buffer: there is no heap to make a `Vec` in.
pub fn read_chain<R: Record>(
    terms: Terms,
    t: &Tables<R>,
    seat: u8,
    out: &mut [u32],
) -> Result<usize, BenchFault>
    ensures answer { result ≡ chain_answer (setup_of terms t.now) (view terms t.now) seat (length out.old) }
    ensures buffer { out.new ≡ buffer_after (setup_of terms t.now) (view terms t.now) seat result out.old }
{
    check_honest(terms, t, seat)?;
    let head = t.seat_row(seat).head;
    let many = terms.round_of(head) as usize + 1;
    if out.len() < many {
        return Err(BenchFault::ShortBuffer);
    }
    write_chain(t, head, &mut out[..many]);
    Ok(many)
}
