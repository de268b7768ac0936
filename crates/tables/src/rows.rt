//! Rows of a table: what lies past its end is blank.
ghost use Rattle.std.specs.Prelude.{◌≡◌, slice_index_or};

/// The row at a place, or the blank one where there is none.
pub fn row_or<T: Copy>(rows: &[T], at: usize, blank: T) -> T
    ensures { result ≡ slice_index_or rows.now at blank }
{
    rows.get(at).copied().unwrap_or(blank)
}
