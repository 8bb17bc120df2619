//! Laws of the definitions that the calls on a window cite. Each holds for every list of calls or entries, and stands on
//! a function that does nothing.
ghost use Rattle.std.specs.Prelude.{◌≡◌, ℕ, List, [], ◌∷◌, ◌++◌, fold};
ghost use Rattle.gw_base.specs.declared.history.HistoryEntry.{HistoryEntry};
ghost use Rattle.seq_window.specs.Seen.{nothing_seen, with_state};
ghost use Rattle.seq_window.specs.Sets.{Setting, seen_by};
ghost use Rattle.seq_window.specs.Histories.{EachNamesHeld, IsFreshAbove, NamesHeld, seen_after, window_of};

/// After any list of `set` calls since a window was made or cleared, a number that it holds has the state of its last
/// one, and is fresh where there is none.
pub fn the_last_set_decides()
    ensures all { (half : ℕ) (sets : List Setting) →
        fold (λ seen set. with_state half set.number set.state seen) nothing_seen sets ≡ seen_by half sets }
    ensures one_more { (half : ℕ) (sets : List Setting) (set : Setting) →
        seen_by half (sets ++ set ∷ []) ≡ with_state half set.number set.state (seen_by half sets) }
{}

/// A window that takes each entry of a history follows it, where Release and Cancel entries name held numbers alone.
pub fn a_window_follows_its_history()
    ensures all { (half node : ℕ) (h : List HistoryEntry) → EachNamesHeld node h →
        fold (λ seen e. seen_after half node e.act seen) nothing_seen h ≡ window_of half node h }
    ensures follows { (half node : ℕ) (h : List HistoryEntry) (e : HistoryEntry) → IsFreshAbove node h →
        window_of half node (h ++ e ∷ []) ≡ seen_after half node e.act (window_of half node h) }
    ensures fresh { (node : ℕ) (h : List HistoryEntry) (e : HistoryEntry) → IsFreshAbove node h →
        NamesHeld node h e.act → IsFreshAbove node (h ++ e ∷ []) }
    ensures none { (node : ℕ) → IsFreshAbove node [] }
{}
