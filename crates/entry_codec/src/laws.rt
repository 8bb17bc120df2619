//! Laws of how entries are spelled and read. Each holds for all entries and octets, and stands on a
//! function that does nothing.

ghost use Rattle.std.specs.Prelude.{◌≡◌, ◌≢◌, ◌+◌, ◌*◌, ◌==◌, All, true, List, ℕ, [], ◌++◌, ◌∷◌, length, Ok};
ghost use Rattle.std.specs.List.{IsDistinct};
ghost use Rattle.gw_base.specs.declared.address.NodeId.{NodeId};
ghost use Rattle.gw_base.specs.declared.history.Caller.{Caller};
ghost use Rattle.gw_base.specs.declared.history.HistoryAct.TheVariants.{Close, Release, Cancel};
ghost use Rattle.gw_base.specs.declared.history.HistoryEntry.{HistoryEntry};
ghost use Rattle.gw_base.specs.HeldKeys.{held_keys, holds};
ghost use Rattle.gw_base.specs.History.{is_close_due};
ghost use Rattle.entry_codec.specs.Content.{AreEntries, spelled};
ghost use Rattle.entry_codec.specs.LawTypes.{EntriesAreReadBack, EntriesDivide, RoomIsOfTheAct};
ghost use Rattle.entry_codec.specs.Room.{IsWithin, costs_of, has_room};
ghost use Rattle.entry_codec.specs.Reading.{entry_at};
ghost use Rattle.entry_codec.specs.Spelling.{AreBelow, HasSpelling, spelling};

/// What is spelled is read back, whatever follows it.
pub fn spelled_is_read_back()
    ensures { (e : HistoryEntry) (more : List ℕ) → HasSpelling e → entry_at (spelling e ++ more) ≡ Ok (e, more) }
{}

/// What is read is spelled so.
pub fn what_is_read_is_spelled()
    ensures { (octets : List ℕ) (e : HistoryEntry) (more : List ℕ) → AreBelow 256 octets →
        entry_at octets ≡ Ok (e, more) →
        HasSpelling e × (octets ≡ spelling e ++ more) }
{}

/// No two entries have one spelling.
pub fn spellings_differ()
    ensures { (a b : HistoryEntry) → HasSpelling a → HasSpelling b → spelling a ≡ spelling b → a ≡ b }
{}

/// No spelling is the beginning of a longer one.
pub fn no_spelling_begins_another()
    ensures { (a b : HistoryEntry) (more : List ℕ) → HasSpelling a → HasSpelling b →
        spelling b ≡ spelling a ++ more → more ≡ [] }
{}

/// What is spelled, entry by entry, is read back so, and nothing else spells it.
#[tactic(auto, using(crate::proofs::Contents::entries_of_entries))]
pub fn entries_are_read_back()
    ensures { EntriesAreReadBack }
{}

/// The octets of one entry are that entry alone.
#[tactic(auto, using(crate::specs::Laws::one_entry))]
pub fn one_entry_is_entries()
    ensures { (e : HistoryEntry) → HasSpelling e → AreEntries (spelling e) (e ∷ []) }
{}

/// Entries that follow entries are the entries of both.
pub fn entries_go_on()
    ensures { (a b : List ℕ) (h g : List HistoryEntry) → AreEntries a h → AreEntries b g →
        AreEntries (a ++ b) (h ++ g) }
{}

/// Where octets that begin with entries are entries, those in front are the first of them, and the rest are entries too.
pub fn entries_divide()
    ensures { EntriesDivide }
{}

/// Octets are the entries of at most one history.
pub fn entries_are_unique()
    ensures { (octets : List ℕ) (h g : List HistoryEntry) → AreEntries octets h → AreEntries octets g → h ≡ g }
{}

/// Entries cost their octets, and five more each.
pub fn costs_are_octets_and_five_each()
    ensures { (h : List HistoryEntry) → costs_of h ≡ length (spelled h) + 5 * length h }
{}

/// What entries cost is the sum over their parts.
pub fn costs_add_up()
    ensures { (h g : List HistoryEntry) → costs_of (h ++ g) ≡ costs_of h + costs_of g }
{}

/// Room for an entry depends on its act alone: neither the moment nor the caller matters.
#[tactic(auto, using(crate::proofs::Rooms::same_room))]
pub fn room_is_of_the_act()
    ensures { RoomIsOfTheAct }
{}

/// An entry with room keeps costs and promises within the capacity.
#[tactic(auto, using(crate::proofs::Rooms::stays_within))]
pub fn room_keeps_within()
    ensures { (h : List HistoryEntry) (e : HistoryEntry) (size : ℕ) → has_room h e size ≡ true →
        IsWithin (h ++ e ∷ []) size }
{}

/// A Close that is due always has room.
#[tactic(auto, using(crate::proofs::Rooms::due_close))]
pub fn a_due_close_has_room()
    ensures { (h : List HistoryEntry) (moment : ℕ) (caller : Caller) (size : ℕ) → IsWithin h size →
        is_close_due h ≡ true →
        has_room h (record { moment = moment; caller = caller; act = Close }) size ≡ true }
{}

/// A Release of held numbers, each named once, always has room.
#[tactic(auto, using(crate::proofs::Rooms::released_held))]
pub fn a_release_of_held_numbers_has_room()
    ensures { (h : List HistoryEntry) (moment : ℕ) (caller : Caller) (node : NodeId) (numbers : List ℕ) (size : ℕ) →
        IsWithin h size →
        numbers ≢ [] → IsDistinct (λ x y. x == y) numbers → All (λ x. holds node.0 x (held_keys h) ≡ true) numbers →
        has_room h (record { moment = moment; caller = caller; act = Release node numbers }) size ≡ true }
{}

/// A Cancel of held numbers, each named once, always has room.
#[tactic(auto, using(crate::proofs::Rooms::cancelled_held))]
pub fn a_cancel_of_held_numbers_has_room()
    ensures { (h : List HistoryEntry) (moment : ℕ) (caller : Caller) (node : NodeId) (numbers : List ℕ) (size : ℕ) →
        IsWithin h size →
        numbers ≢ [] → IsDistinct (λ x y. x == y) numbers → All (λ x. holds node.0 x (held_keys h) ≡ true) numbers →
        has_room h (record { moment = moment; caller = caller; act = Cancel node numbers }) size ≡ true }
{}
