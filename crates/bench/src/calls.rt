//! The calls that drive a bench.
// `ticking` and `acting` carry them out on bare numbers and tables, and promise the outcome of the rules. A method here makes
// such a call one of a live bench, and adds that the laws hold after it. With the body here as well, the laws would have to be
// proved anew at each place where a call returns.
ghost use Rattle.rules.specs.Runs.Call.{tick_call, offer_call, block_call, vote_call, certificate_call, plant_call, sign_call};
ghost use Rattle.bench.specs.Runs.{Plays};

use crate::live::{Bench, Live};
use records::Record;
use rules::fault::BenchFault;
use tables::lent::Tables;

impl Bench<Live> {
    /// A tick: the clock moves on, and the waits that are due end. It is refused while a message would be overdue.
    pub fn tick<R: Record>(&mut self, t: &mut Tables<R>) -> Result<(), BenchFault>
        ensures { Plays R.Record.kind tick_call result self.old self.new t.old t.new }
    {
        ticking::clock::tick(&mut self.terms, t)
    }

    /// An offer: the draft replaces the one that an honest seat has.
    pub fn offer<R: Record>(&self, t: &mut Tables<R>, seat: u8, draft: R) -> Result<(), BenchFault>
        ensures { Plays R.Record.kind (offer_call seat draft) result self.now self.now t.old t.new }
    {
        acting::calls::offer(self.terms, t, seat, draft)
    }

    /// An honest seat gets a block, with its ancestors and all that they carry, and reacts.
    pub fn deliver_block<R: Record>(
        &self,
        t: &mut Tables<R>,
        receiver: u8,
        block: u32,
    ) -> Result<(), BenchFault>
        ensures { Plays R.Record.kind (block_call receiver block) result self.now self.now t.old t.new }
    {
        acting::calls::deliver_block(self.terms, t, receiver, block)
    }

    /// An honest seat gets a vote with its block, and reacts.
    pub fn deliver_vote<R: Record>(
        &self,
        t: &mut Tables<R>,
        voter: u8,
        receiver: u8,
        block: u32,
    ) -> Result<(), BenchFault>
        ensures { Plays R.Record.kind (vote_call voter receiver block) result self.now self.now t.old t.new }
    {
        acting::calls::deliver_vote(self.terms, t, voter, receiver, block)
    }

    /// An honest seat gets the certificate with which an honest sender left a round, and reacts.
    pub fn deliver_certificate<R: Record>(
        &self,
        t: &mut Tables<R>,
        sender: u8,
        receiver: u8,
        round: u16,
    ) -> Result<(), BenchFault>
        ensures { Plays R.Record.kind (certificate_call sender receiver round) result self.now self.now t.old t.new }
    {
        acting::calls::deliver_certificate(self.terms, t, sender, receiver, round)
    }

    /// A Byzantine seat makes a block, on a notarised parent and with any record. It carries every signature on the parent.
    pub fn plant<R: Record>(
        &self,
        t: &mut Tables<R>,
        seat: u8,
        round: u16,
        edition: u8,
        parent: u32,
        posted: R,
    ) -> Result<(), BenchFault>
        ensures { Plays R.Record.kind (plant_call seat round edition parent posted) result self.now self.now t.old t.new }
    {
        acting::calls::plant(self.terms, t, seat, round, edition, parent, posted)
    }

    /// A Byzantine seat signs a block; the signature may then be delivered as a vote.
    pub fn sign<R: Record>(&self, t: &mut Tables<R>, seat: u8, block: u32) -> Result<(), BenchFault>
        ensures { Plays R.Record.kind (sign_call seat block) result self.now self.now t.old t.new }
    {
        acting::calls::sign(self.terms, t, seat, block)
    }
}
