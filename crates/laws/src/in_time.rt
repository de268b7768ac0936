//! The deadlines of every run.
ghost use Rattle.std.specs.Prelude.{◌≡◌, true};
ghost use Rattle.laws.specs.Deadlines.{EveryRunIsInTime};

use records::Record;

/// The tick by which a round must be over, and by which the block of an honest first seat must be final everywhere, are met
/// in every run. Answers whether that is proved, which it is.
pub fn every_run_is_in_time<R: Record>() -> bool
    ensures proved { result ≡ true }
    ensures in_time { EveryRunIsInTime R.Record.kind }
{
    true
}
