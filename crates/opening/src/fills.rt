//! Filling the table of orders.
ghost use Rattle.std.specs.Prelude.{◌≡◌, ◌≤◌, length};
ghost use Rattle.orders.specs.Rows.{order_rows};

use orders::{Beacon, ranks_of};

// Copies the orders of a beacon out, from round 1 on.
#[tactic(auto, using(orders::proofs::Rows::fill_end), unfolding(orders::specs::Rows::numbers))]
pub(crate) fn fill_orders<B: Beacon>(beacon: &B, rows: &mut [[u8; 16]])
    requires { length rows.old ≤ 256 }
    ensures { rows.new ≡ order_rows (B.ranking beacon.now) (length rows.old) }
{
    // By index: the library does not say what rows hold after `iter_mut` with `zip`, and a closure for `fill_with` would count by hand.
    for i in 0..rows.len() {
        rows[i] = ranks_of(beacon, i as u16 + 1);
    }
}
