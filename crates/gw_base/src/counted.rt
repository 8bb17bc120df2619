ghost use Rattle.std.specs.Prelude.{◌≡◌, ◌≤◌, ◌^◌, ◌<◌, ◌⊎◌, ℕ};
ghost use Rattle.gw_base.specs.Facts.{AreSound};
ghost use Rattle.gw_base.specs.Faults.{Rose, Stood};

/// A value that stands for a history, part of which is firm: what happens to the device can't take
/// that part away any more.
pub trait Counted {
    ghost use Rattle.std.specs.Prelude.{Bool};
    ghost use Rattle.gw_base.specs.Facts.{Facts};

    /// Whether the type tells its lists. Where it doesn't, they say nothing; the numbers hold for
    /// every type.
    ghost told: { Bool };

    /// What the value stands for.
    ghost facts: { Self → Facts };

    /// A length that never falls, and is at most that of the firm part. It may stand still while that part grows.
    fn length(&self) -> u64
        ensures length { result ≡ (facts self.now).length }
        ensures sound { AreSound told (facts self.now) };
}

/// From one moment to a later one, a count of 64 bits that never falls either rose or stood.
pub fn a_count_rose_or_stood()
    ensures either { (before after : ℕ) → before ≤ after → after < 2 ^ 64 → Rose before after ⊎ Stood before after }
    ensures not_both { (before after : ℕ) → Rose before after → Stood before after → ⊥ }
{}
