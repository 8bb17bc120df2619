ghost use Rattle.std.specs.Prelude.{◌≡◌, ◌≤◌, ◌+◌, ◌++◌, ◌↔◌, [], length, IsSome, IfSome};

use std::marker::Model;

/// A list of at most 64 octets, which is long enough for every reply.
#[derive(Drop)]
pub struct Short {
    octets: [u8; 64],
    used: usize,
}

impl Model for Short {
    ghost use Rattle.std.specs.Prelude.{List, ℕ, ◌≤◌, take};

    ghost Value = { List ℕ };

    ghost view = { λ s. take s.used s.octets };

    ghost invariant = { λ s. s.used ≤ 64 };
}

impl Short {
    /// The most octets that a `Short` has.
    pub const CAPACITY: usize = 64;

    /// No octets.
    pub fn new() -> Short
        ensures { result ≡ [] }
    {
        Short {
            octets: [0; 64],
            used: 0,
        }
    }

    /// A copy of these octets, if there are at most 64.
    pub fn of(from: &[u8]) -> Option<Short>
        ensures within { IsSome result ↔ (length from.now ≤ 64) }
        ensures value { IfSome result (λ short. short ≡ from.now) }
    {
        if from.len() > Short::CAPACITY {
            return None;
        }
        let mut short = Short::new();
        short.append(from);
        Some(short)
    }

    /// Appends octets for which there is room.
    pub fn append(&mut self, from: &[u8])
        requires { length self.old + length from.now ≤ 64 }
        ensures { self.new ≡ self.old ++ from.now }
    {
        let end = self.used + from.len();
        self.octets[self.used..end].copy_from_slice(from);
        self.used = end;
    }

    /// The octets, in order.
    pub fn octets(&self) -> &[u8]
        ensures { result.now ≡ self.now }
    {
        &self.octets[..self.used]
    }
}
