//! The order of the seats in a round.
ghost use Rattle.std.specs.Prelude.{◌≡◌};
ghost use Rattle.rules.specs.Ranks.{rank};
ghost use Rattle.tables.specs.View.{setup_of, order_at};

use crate::lent::Tables;
use crate::rows::row_or;
use records::Record;
use terms::terms::Terms;

impl<R: Record> Tables<'_, R> {
    /// A round's order, copied out: the rank of each of sixteen seats. All 0 where the table has no such round.
    pub fn order_row(&self, round: u32) -> [u8; 16]
        ensures { result ≡ order_at self.now.orders.now round }
    {
        row_or(&*self.orders, round.saturating_sub(1) as usize, [0; 16])
    }

    /// The rank of a block: that of its owner in its round. 0 leads.
    pub fn rank_of(&self, terms: Terms, block: u32) -> u8
        ensures { result ≡ rank (setup_of terms self.now) block }
    {
        let ranks = self.order_row(terms.round_of(block));
        ranks[terms.owner_of(block) as usize]
    }
}
