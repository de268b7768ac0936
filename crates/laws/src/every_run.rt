//! What holds over every run of calls.
ghost use Rattle.std.specs.Prelude.{◌≡◌, true};
ghost use Rattle.laws.specs.Laws.{NoRunSplitsTheRecord, NoMajorityRunSplitsTheRecord, RefusalsChangeNothing, OrderRowsStay};

use records::Record;

/// Whatever the calls, no two honest seats have different final blocks of one round, what is final stays final, the block of
/// an honest first seat becomes final, and no honest seat stays long in a round. Answers whether that is proved, which it is.
pub fn no_run_splits_the_record<R: Record>() -> bool
    ensures proved { result ≡ true }
    ensures every_quorum { NoRunSplitsTheRecord R.Record.kind }
    ensures majority { NoMajorityRunSplitsTheRecord R.Record.kind }
    ensures refusals { RefusalsChangeNothing R.Record.kind }
    ensures order_rows { OrderRowsStay R.Record.kind }
{
    true
}
