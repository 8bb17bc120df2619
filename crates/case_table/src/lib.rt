//! Tables of cases: rows under keys, of which no two are the same.
//!
//! The model of a table is the list of its rows, `specs/Rows.antt`; the contract of `find` is that
//! it searches that list.
//!
//!     let row = cases![1 => 10, 0; 2 => 20, 1].find(2);
#![tactic(auto)]

ghost use Rattle.std.specs.Prelude.{◌≡◌, ◌≢◌, ℕ, ◌↔◌, true, All, Contains, IfOk, IfSome, IsNone, is_ok};
ghost use Rattle.std.specs.List.{find};
ghost use Rattle.case_table.specs.Rows.{IsLeastDoubled, are_distinct, has_key};

use std::marker::Model;

pub mod laws;
mod macros;
mod rows;

/// One case: what a table has under a key.
#[derive(Clone, Copy, Debug)]
pub struct Row {
    /// What the row is found by.
    pub key: u32,
    /// What the table gives for the key.
    pub value: u32,
    /// A second number that the table gives for the key.
    pub mark: u32,
}

/// A key that more than one row has, the least of them.
#[derive(Clone, Copy, Debug)]
pub struct Twice {
    /// The key.
    pub key: u32,
}

/// A table of `N` rows, in the order in which they were given. [`cases!`](crate::cases) writes
/// one in the body of a function.
#[derive(Clone, Copy)]
pub struct Cases<const N: usize> {
    rows: [Row; N],
}

impl<const N: usize> Model for Cases<N> {
    ghost use Rattle.std.specs.Prelude.{List};
    ghost use Rattle.case_table.specs.declared.Row.{Row};

    ghost Value = { List Row };

    ghost view = { λ table. table.rows };

    ghost inverse = { λ rows. record { rows = rows } };
}

impl<const N: usize> Cases<N> {
    /// Makes a table of the rows, unless two of them have one key.
    pub fn of(rows: [Row; N]) -> Result<Self, Twice>
        ensures rows { IfOk result (λ table. table ≡ rows.entry) }
        ensures distinct { is_ok result ≡ are_distinct rows.entry }
        ensures twice { (key : ℕ) → (result ≡ Err (record { key = key })) ↔ IsLeastDoubled rows.entry key }
    {
        match rows::least_doubled(&rows) {
            Some(key) => Err(Twice { key }),
            None => Ok(Cases { rows }),
        }
    }

    /// A table of rows of which no two have one key. Where that isn't known, [`Cases::of`] tests it.
    pub fn of_distinct(rows: [Row; N]) -> Self
        requires { are_distinct rows ≡ true }
        ensures { result ≡ rows.entry }
    {
        Cases { rows }
    }

    /// Looks the key up.
    pub fn find(&self, key: u32) -> Option<Row>
        ensures first { result ≡ find (has_key key) self.now }
        ensures found { IfSome result (λ row. Contains self.now row × (row.key ≡ key)) }
        ensures none { IsNone result ↔ All (λ row. row.key ≢ key) self.now }
    {
        rows::find(&self.rows, key)
    }
}
