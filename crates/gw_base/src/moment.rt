ghost use Rattle.std.specs.Prelude.{◌≡◌, ◌≤◌, ◌↔◌, ◌-◌, ◌<◌, ℕ, IsSome, IfSome};

use std::marker::Model;

/// A number of seconds since 1970-01-01 UTC, from 0 to 4,102,444,799, which is the last second of
/// the year 2099.
#[derive(Clone, Copy, Debug, PartialEq, Eq, PartialOrd, Ord)]
pub struct Moment {
    seconds: u64,
}

impl Model for Moment {
    ghost use Rattle.std.specs.Prelude.{ℕ, ◌≤◌};

    ghost Value = { ℕ };

    ghost view = { λ m. m.seconds };

    ghost invariant = { λ m. m.seconds ≤ 4102444799 };

    ghost inverse = { λ n. record { seconds = n } };
}

impl Moment {
    /// The last moment.
    pub const LAST_SECOND: u64 = 4_102_444_799;

    /// The moment that many seconds after the beginning of 1970, if it is in the range.
    pub fn of(seconds: u64) -> Option<Moment>
        ensures within { IsSome result ↔ (seconds ≤ 4102444799) }
        ensures value { IfSome result (λ m. m ≡ seconds) }
    {
        if seconds <= Moment::LAST_SECOND {
            Some(Moment { seconds })
        } else {
            None
        }
    }

    /// The seconds since the beginning of 1970.
    pub fn seconds(self) -> u64
        ensures value { result ≡ self }
        ensures within { result ≤ 4102444799 }
    {
        self.seconds
    }
}
