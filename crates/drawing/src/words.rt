//! The parts of a line.
ghost use Rattle.std.specs.Prelude.{◌≡◌, ◌++◌, OnOk, string_bytes};
ghost use Rattle.drawing.specs.Report.{seat_words, side_word};

use std::alloc::AllocError;

// Each seat after a space.
pub(crate) fn seat_words(out: &mut String, seats: &[u8]) -> Result<(), AllocError>
    ensures { OnOk result (string_bytes out.new ≡ string_bytes out.old ++ seat_words seats.now) }
{
    for &seat in seats {
        write!(out, " {seat}")?;
    }
    Ok(())
}

// On which side a seat is.
pub(crate) fn side_word(honest: bool) -> &'static str
    ensures { result.now ≡ side_word honest }
{
    if honest { "honest" } else { "Byzantine" }
}
