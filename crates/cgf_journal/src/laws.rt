//! Laws of what octets stand for. Each holds for all octets, and stands on a function that does nothing.

ghost use Rattle.std.specs.Prelude.{◌≡◌, ℕ, List};
ghost use Rattle.gw_base.specs.declared.history.HistoryEntry.{HistoryEntry};
ghost use Rattle.gate_journal.specs.Format.{Starts, header};
ghost use Rattle.cgf_journal.specs.Format.{IsForeignTo, StandsFor};

use entry_codec::laws::entries_are_read_back;

/// Octets stand for one history at most.
pub fn octets_stand_for_one_history()
    ensures { (size address generation : ℕ) (octets : List ℕ) (h g : List HistoryEntry) →
        StandsFor (header size address generation) octets h →
        StandsFor (header size address generation) octets g → h ≡ g }
{
    entries_are_read_back();
}

/// Octets that stand for a history neither start nor are foreign.
pub fn what_stands_is_ours()
    ensures starts { (size address generation : ℕ) (octets : List ℕ) (h : List HistoryEntry) →
        StandsFor (header size address generation) octets h → ¬ (Starts (header size address generation) octets) }
    ensures foreign { (size address generation : ℕ) (octets : List ℕ) (h : List HistoryEntry) (at : ℕ) →
        StandsFor (header size address generation) octets h →
        ¬ (IsForeignTo (header size address generation) octets at) }
{
    entries_are_read_back();
}

/// Octets that are foreign don't start, and one place shows it.
pub fn what_is_foreign_is_so_at_one_place()
    ensures starts { (size address generation : ℕ) (octets : List ℕ) (at : ℕ) →
        IsForeignTo (header size address generation) octets at → ¬ (Starts (header size address generation) octets) }
    ensures place { (size address generation : ℕ) (octets : List ℕ) (at far : ℕ) →
        IsForeignTo (header size address generation) octets at →
        IsForeignTo (header size address generation) octets far → at ≡ far }
{}
