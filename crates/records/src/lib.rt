//! What blocks carry: record types, and the two that a joint gas record uses.
#![tactic(auto)]

ghost use Rattle.std.specs.Prelude.{◌≡◌};
ghost use Rattle.records.specs.Kind.{Kind, IdleFollows};

pub mod heat;
pub mod turn;

/// A record type. `kind` is its meaning; asking changes nothing, and the answer is always the meaning's.
pub trait Record: Copy {
    ghost kind: { Kind Self };

    /// The record of block 0.
    // Not `Default`: what block 0 carries is part of what a kind means.
    fn first() -> Self
        ensures { result ≡ kind.first };

    /// Whether `self` may be posted on a block whose record is `parent`.
    fn follows(&self, parent: &Self) -> bool
        ensures { result ≡ kind.follows self.now parent.now };

    /// What is posted on `self` when there is nothing to say.
    fn idle(&self) -> Self
        ensures { result ≡ kind.idle self.now };

    ghost idle_follows: { IdleFollows kind };
}
