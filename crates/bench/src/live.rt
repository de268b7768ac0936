//! A bench, which is live until it is closed.
ghost use Rattle.terms.specs.declared.terms.Terms.{Terms};

use std::marker::{Model, PhantomData};
use terms::terms::Terms;

/// The state of a bench that can be driven.
#[derive(Drop)]
pub struct Live;

/// A bench. Its tables are the caller's, and go with every call. In every state it can be read; only a live one takes the calls
/// that drive it.
#[derive(Drop)]
pub struct Bench<S = Live> {
    pub(crate) terms: Terms,
    pub(crate) state: PhantomData<S>,
}

// A bench is seen as its numbers, with its clock.
impl<S> Model for Bench<S> {
    ghost Value = { Terms };

    ghost view = { λ b. b.terms };
}
