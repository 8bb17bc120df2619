ghost use Rattle.std.specs.Prelude.{◌≡◌, ◌↔◌, IsSome, IfSome};
ghost use Rattle.jiff_core.specs.Calendar.{IsWithin};

use std::marker::Model;

/// How far a local clock is ahead of UTC, in minutes, from -959 to 959: less than 16 hours either
/// way.
#[derive(Clone, Copy)]
pub struct Offset16 {
    minutes: i16,
}

impl Model for Offset16 {
    ghost use Rattle.std.specs.Prelude.{ℤ};
    ghost use Rattle.jiff_core.specs.Calendar.{IsWithin};

    ghost Value = { ℤ };

    ghost view = { λ offset. offset.minutes };

    ghost invariant = { λ offset. IsWithin 959 offset.minutes };

    ghost inverse = { λ minutes. record { minutes = minutes } };
}

impl Offset16 {
    /// The greatest offset, 15 hours and 59 minutes.
    const MOST_MINUTES: i16 = 959;

    /// The offset of that many minutes, if it is in the range.
    pub fn of(minutes: i16) -> Option<Offset16>
        ensures within { IsSome result ↔ IsWithin 959 minutes }
        ensures value { IfSome result (λ offset. offset ≡ minutes) }
    {
        if minutes < -Offset16::MOST_MINUTES || minutes > Offset16::MOST_MINUTES {
            None
        } else {
            Some(Offset16 { minutes })
        }
    }

    /// The minutes of the offset.
    pub(crate) fn minutes(self) -> i16
        ensures value { result ≡ self }
        ensures within { IsWithin 959 result }
    {
        self.minutes
    }
}
