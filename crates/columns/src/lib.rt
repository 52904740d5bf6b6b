// Which columns of the log's table are floats. Nothing is refused: a column past the last is as the last.
#![tactic(auto)]

ghost use Rattle.std.specs.Prelude.{◌≡◌};
ghost use Rattle.columns.specs.Columns.{form_of, is_float};

// Pressures and reliefs are floats.
pub fn is_float(column: usize) -> bool
    ensures { result ≡ is_float (form_of column) }
{
    matches!(column, 1..=3 | 11..)
}
