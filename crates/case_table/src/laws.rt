//! A law of the definitions that the calls on a table cite, which holds for every list of rows and
//! stands on a function that does nothing, and what a written table gives.

ghost use Rattle.std.specs.Prelude.{◌≡◌, true, List, Some, Contains};
ghost use Rattle.std.specs.List.{find};
ghost use Rattle.case_table.specs.Rows.{are_distinct, has_key};
ghost use Rattle.case_table.specs.declared.Row.{Row};

use crate::{Row, cases};

/// Where no key stands twice, each row is the one that is found by its key.
pub fn each_row_is_found()
    ensures { (rows : List Row) (row : Row) → are_distinct rows ≡ true → Contains rows row →
        find (has_key row.key) rows ≡ Some row }
{}

/// A table that is written in a function's body gives each row under its key, with its value and
/// its mark, and the proof knows it.
pub fn a_written_row_is_found() -> Option<Row>
    ensures { result ≡ Some (record { key = 2; value = 20; mark = 1 }) }
{
    cases![1 => 10, 0; 2 => 20, 1; 3 => 30, 0].find(2)
}
