ghost use Rattle.std.specs.Prelude.{◌≡◌, ◌≤◌, length, IfOk, OnOk, OnErr};
ghost use Rattle.std.specs.Io.KnownBytes.{ReadConsumes};
ghost use Rattle.gw_base.specs.Faults.{Rose};

use crate::fault::Failed;

/// An input that is read from its front to its end.
pub trait Source {
    ghost use Rattle.std.specs.Prelude.{ℕ, List, Option};

    /// The octets that are left, where the source tells them.
    ghost left: { Self → Option (List ℕ) };

    /// How many faults there were. The count never falls, and stands still at 2^64 - 1.
    ghost faults: { Self → ℕ };

    /// Takes the next octets of what is left into the front of `into`, and says how many. 0 octets
    /// in a buffer that isn't empty are the end of the input. `Failed` takes nothing.
    fn take(&mut self, into: &mut [u8]) -> Result<usize, Failed>
        ensures within { IfOk result (λ n. n ≤ length into.new) }
        ensures taken { ReadConsumes (left self.old) (left self.new) result into.new }
        ensures counted { faults self.old ≤ faults self.new }
        ensures ok { OnOk result (faults self.new ≡ faults self.old) }
        ensures failed { OnErr result (Rose (faults self.old) (faults self.new)) };
}
