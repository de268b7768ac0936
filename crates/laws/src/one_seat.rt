//! One run, computed.
ghost use Rattle.std.specs.Prelude.{◌≡◌, true};
ghost use Rattle.laws.specs.OneSeat.{AllAccepted, FinalChainReached, SignatureRefused};

/// A bench of one seat reaches round 3 with the final chain 0 1 in six ticks, all accepted. Answers whether that is proved,
/// which it is.
pub fn one_seat_run_finalizes() -> bool
    ensures proved { result ≡ true }
    ensures accepted { AllAccepted }
    ensures final_chain { FinalChainReached }
    ensures signature { SignatureRefused }
{
    true
}
