//! What has to have arrived by the next tick.
ghost use Rattle.std.specs.Prelude.{◌≡◌, suc, ◌+◌, nat_le};

use terms::terms::Terms;

// Whether a message sent at this tick has to have arrived by the next one.
pub(crate) fn is_late(terms: Terms, sent: u32) -> bool
    ensures { result ≡ nat_le (sent + terms.delay) (suc terms.clock) }
{
    sent as u64 + terms.delay as u64 <= terms.clock as u64 + 1
}
