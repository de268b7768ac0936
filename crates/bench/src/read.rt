//! Reading a bench, in whichever state it is.
// `reading` reads by bare numbers and tables. A method here reads a bench, and `final_chain` adds that what is listed are the
// final blocks: that takes the laws, which a reader by bare numbers does not need.
ghost use Rattle.std.specs.Prelude.{◌≡◌, length};
ghost use Rattle.tables.specs.View.{view, setup_of};
ghost use Rattle.terms.specs.Numbers.{bench_of_terms};
ghost use Rattle.reading.specs.Reading.{status_answer, chain_answer, buffer_after};
ghost use Rattle.bench.specs.Runs.{ShowsFinalBlocks};

use crate::live::Bench;
use reading::{read_chain, read_status};
use records::Record;
use rules::fault::BenchFault;
use rules::rows::SeatRow;
use tables::lent::Tables;

impl<S> Bench<S> {
    /// Where an honest seat stands: its round, its phase and its final head.
    pub fn status<R: Record>(&self, t: &Tables<R>, seat: u8) -> Result<SeatRow, BenchFault>
        ensures { result ≡ status_answer (setup_of self.now t.now) (view self.now t.now) seat }
    {
        read_status(self.terms, t, seat)
    }

    /// The final chain of an honest seat, the oldest block first, to the start of the buffer; answers how many blocks it has.
    pub fn final_chain<R: Record>(
        &self,
        t: &Tables<R>,
        seat: u8,
        out: &mut [u32],
    ) -> Result<usize, BenchFault>
        ensures answer { result ≡ chain_answer (setup_of self.now t.now) (view self.now t.now) seat (length out.old) }
        ensures buffer { out.new ≡ buffer_after (setup_of self.now t.now) (view self.now t.now) seat result out.old }
        ensures shows { ShowsFinalBlocks R.Record.kind (bench_of_terms self.now) (view self.now t.now) seat }
    {
        read_chain(self.terms, t, seat, out)
    }
}
