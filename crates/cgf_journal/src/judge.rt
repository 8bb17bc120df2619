// What an opening asks of each entry beside its spelling and its cost.
use gw_base::{Entry, NoMemory};

/// Judges the entries of a history, each after those before it, while it is opened.
pub trait Judge {
    ghost use Rattle.std.specs.Prelude.{◌≡◌, ℕ, true, false, List, [], ◌∷◌, ◌++◌, Ok};
    ghost use Rattle.gw_base.specs.Entry.{entry_view};
    ghost use Rattle.gw_base.specs.declared.history.HistoryEntry.{HistoryEntry};

    /// The judge was asked of these entries, from the first on, and each was fit.
    ghost follows: { Self → List HistoryEntry → Type 0 };

    /// In an area of this size an entry is fit after these.
    ghost fits: { ℕ → List HistoryEntry → HistoryEntry → Type 0 };

    /// Whether an entry is fit after those that the judge was asked of, in an area of this size.
    fn take(&mut self, entry: &Entry<'_>, size: u64) -> Result<bool, NoMemory>
        ensures fit { (h : List HistoryEntry) → follows self.old h → result ≡ Ok true →
            (fits size h (entry_view entry.now) × follows self.new (h ++ entry_view entry.now ∷ [])) }
        ensures unfit { (h : List HistoryEntry) → follows self.old h → result ≡ Ok false →
            ¬ (fits size h (entry_view entry.now)) };
}

/// The judge to whom each entry is fit.
#[derive(Clone, Copy)]
pub(crate) struct TakesAll;

impl Judge for TakesAll {
    ghost use Rattle.std.specs.Prelude.{⊤};

    ghost follows = { λ judge h. ⊤ };

    ghost fits = { λ size h e. ⊤ };

    fn take(&mut self, _: &Entry<'_>, _: u64) -> Result<bool, NoMemory> {
        Ok(true)
    }
}
