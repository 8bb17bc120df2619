ghost use Rattle.std.specs.Prelude.{◌≡◌, List, ℕ};

use gw_base::Octets;
use std::marker::Model;

/// The records of a packet, in order.
#[derive(Debug, Drop)]
pub struct Records {
    records: Vec<Octets>,
}

impl Model for Records {
    ghost use Rattle.std.specs.Prelude.{List, ℕ};

    ghost Value = { List (List ℕ) };

    ghost view = { λ r. r.records.items };
}

impl Records {
    /// The records of a `Vec`, which takes no memory.
    pub fn from_vec(records: Vec<Octets>) -> Records
        ensures { result ≡ records.items }
    {
        Records { records }
    }

    /// The records, in order.
    pub fn records(&self) -> &[Octets]
        ensures { result.now ≡ self.now }
    {
        &self.records
    }
}
