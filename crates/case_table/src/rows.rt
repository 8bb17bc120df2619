ghost use Rattle.std.specs.Prelude.{◌≡◌, ◌≢◌, ◌↔◌, min, All, Contains, IfSome, IsNone};
ghost use Rattle.std.specs.List.{find, reduce};
ghost use Rattle.case_table.specs.Rows.{doubled_keys, has_key, is_doubled};

use crate::Row;

/// Whether more than one row has the key.
fn is_doubled(rows: &[Row], key: u32) -> bool
    ensures { result ≡ is_doubled rows.now key }
{
    rows.iter().filter(|row| row.key == key).count() > 1
}

/// The least key that more than one row has.
pub fn least_doubled(rows: &[Row]) -> Option<u32>
    ensures { result ≡ reduce min (doubled_keys rows.now) }
{
    rows.iter()
        .map(|row| row.key)
        .filter(|key| is_doubled(rows, *key))
        .min()
}

/// The first row that has the key.
pub fn find(rows: &[Row], key: u32) -> Option<Row>
    ensures first { result ≡ find (has_key key) rows.now }
    ensures found { IfSome result (λ row. Contains rows.now row × (row.key ≡ key)) }
    ensures none { IsNone result ↔ All (λ row. row.key ≢ key) rows.now }
{
    rows.iter().find(|row| row.key == key).copied()
}
