//! The lengths of the tables.
ghost use Rattle.std.specs.Prelude.{◌≡◌};
ghost use Rattle.rules.specs.Tables.{fits as fits_of};
ghost use Rattle.tables.specs.View.{view, setup_of};

use crate::lent::Tables;
use records::Record;
use terms::terms::Terms;

impl<R: Record> Tables<'_, R> {
    /// Whether every table has the length that the bench requires.
    #[tactic(auto, unfolding(rules::specs::Tables::fits))]
    pub fn fits(&self, terms: Terms) -> bool
        ensures { result ≡ fits_of (setup_of terms self.now) (view terms self.now) }
    {
        let blocks = terms.block_rows();
        let n = terms.n as usize;
        let rounds = terms.rounds as usize;
        self.blocks.len() == blocks
            && self.records.len() == blocks
            && self.orders.len() == rounds
            && self.drafts.len() == n
            && self.seats.len() == n
            && self.received.len() == blocks * n
            && self.votes.len() == blocks * n
            && self.certificates.len() == n * rounds
    }
}
