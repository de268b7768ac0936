//! What every refusal has, whichever part of the bench it comes from: a number and a plain sentence.
#![tactic(auto)]

ghost use Rattle.std.specs.Prelude.{◌≡◌, ℕ, List};

use std::alloc::AllocError;
use std::fmt;

/// Why a call was turned down.
// No Display: the sentence is a constant text that is handed out whole, where Display would write it anew and could fail.
pub trait Refusal: Copy {
    ghost number: { Self → ℕ };

    ghost sentence: { Self → List ℕ };

    /// The number that the refusal is printed with.
    // Each type says it by a match, with no numbers on its variants: a refusal can hold another's, and two can have one number.
    fn number(self) -> u8
        ensures { result ≡ number self };

    /// The refusal in a plain sentence.
    fn sentence(self) -> &'static str
        ensures { result.now ≡ sentence self };
}

/// Why a text is not made.
#[derive(Clone, Copy, PartialEq, Eq, Debug)]
pub enum TextFault<F> {
    /// What the text is about was refused.
    Refused(F),
    /// Memory ran out.
    Memory,
}

impl<F: Refusal> From<F> for TextFault<F> {
    ghost use Rattle.refusals.specs.declared.TextFault.TheVariants.{Refused};

    ghost from_gives = { λ e r. r ≡ Refused e };

    fn from(e: F) -> TextFault<F> {
        TextFault::Refused(e)
    }
}

impl<F> From<AllocError> for TextFault<F> {
    ghost use Rattle.refusals.specs.declared.TextFault.TheVariants.{Memory};

    ghost from_gives = { λ _ r. r ≡ Memory };

    fn from(_e: AllocError) -> TextFault<F> {
        TextFault::Memory
    }
}

/// A text in memory that cannot be written on: only want of memory ends that.
impl<F> From<fmt::Error> for TextFault<F> {
    ghost use Rattle.refusals.specs.declared.TextFault.TheVariants.{Memory};

    ghost from_gives = { λ _ r. r ≡ Memory };

    fn from(_e: fmt::Error) -> TextFault<F> {
        Self::Memory
    }
}

impl<F: Refusal> Refusal for TextFault<F> {
    ghost use Rattle.refusals.specs.Texts.{text_fault_number, text_fault_sentence};

    ghost number = { text_fault_number F.number };

    ghost sentence = { text_fault_sentence F.sentence };

    fn number(self) -> u8 {
        match self {
            TextFault::Refused(fault) => fault.number(),
            // It is printed as a refusal is, so it has a number: 0, which is none of the rules'.
            TextFault::Memory => 0,
        }
    }

    fn sentence(self) -> &'static str {
        match self {
            TextFault::Refused(fault) => fault.sentence(),
            TextFault::Memory => "out of memory",
        }
    }
}
