ghost use Rattle.std.specs.Prelude.{◌≡◌, ◌≢◌, ◌<◌, ◌≤◌, ◌⊎◌, length, take, IfOk, OnOk, OnErr};
ghost use Rattle.std.specs.Io.KnownBytes.{Appends};
ghost use Rattle.gw_base.specs.Faults.{Rose};
ghost use Rattle.gw_base.specs.Written.{AppendsFront};

use crate::fault::Failed;

/// An output that grows at its end.
pub trait Sink {
    ghost use Rattle.std.specs.Prelude.{ℕ, List, Option};

    /// The octets that were written, where the sink tells them.
    ghost written: { Self → Option (List ℕ) };

    /// How many faults there were. The count never falls, and stands still at 2^64 - 1.
    ghost faults: { Self → ℕ };

    /// Appends a front of `from`, and says how many octets it has. 0 octets of a piece that isn't
    /// empty are a fault. At `Failed` some front of `from` may have been appended.
    fn put(&mut self, from: &[u8]) -> Result<usize, Failed>
        ensures within { IfOk result (λ n. n ≤ length from.now) }
        ensures appended { IfOk result (λ n. Appends (written self.old) (written self.new) (take n from.now)) }
        ensures front { OnErr result (AppendsFront (written self.old) (written self.new) from.now) }
        ensures stalled { result ≡ Ok 0 → 0 < length from.now → Rose (faults self.old) (faults self.new) }
        ensures counted { faults self.old ≤ faults self.new }
        ensures ok { OnOk result (result ≢ Ok 0 ⊎ length from.now ≡ 0 → faults self.new ≡ faults self.old) }
        ensures failed { OnErr result (Rose (faults self.old) (faults self.new)) };
}
