//! What a turn is, and what several turns are.
ghost use Rattle.gw_base.specs.Facts.{WhereTold};
ghost use Rattle.gw_base.specs.Owes.{Adds, Owes};

use gw_base::{Counted, HistoryEntry};

/// What is done with the value of a cell while nobody else has it.
pub trait Turn<V: Counted> {
    ghost use Rattle.std.specs.Prelude.{ℕ, Bool, List, Option};
    ghost use Rattle.gw_base.specs.declared.history.HistoryEntry.{HistoryEntry};

    /// What the caller is told.
    type Answer;

    /// The session whose number the entries bear that it adds, if it names one.
    ghost session: { Self → Option ℕ };

    /// What it does: of the value found, the value left, the answer, whether the torn entries were dropped, and the
    /// entries added.
    ghost does: { Self → V → V → Self.Answer → Bool → List HistoryEntry → Type 0 };

    /// Takes the turn.
    fn run(self, value: &mut V) -> Self::Answer
        ensures owes { Owes V.told (V.facts value.old) (V.facts value.new) }
        ensures does { (drops : Bool) × (added : List HistoryEntry)
            × WhereTold V.told (Adds (session self) (V.facts value.old) (V.facts value.new) drops added)
            × does self value.old value.new result drops added };
}

/// Turns that are taken one behind the other, one for each of some items.
pub trait Turns<V: Counted, I> {
    ghost use Rattle.std.specs.Prelude.{ℕ, Bool, List, Option};
    ghost use Rattle.gw_base.specs.declared.history.HistoryEntry.{HistoryEntry};

    /// What the caller is told of an item.
    type Answer;

    /// The session whose number the entries bear that they add, if they name one.
    ghost session: { Self → Option ℕ };

    /// What the turn of an item does: of the value found, the value left, the answer, whether the torn entries were
    /// dropped, and the entries added.
    ghost does: { Self → I → V → V → Self.Answer → Bool → List HistoryEntry → Type 0 };

    /// Takes the turn of an item.
    fn run(&self, item: &I, value: &mut V) -> Self::Answer
        ensures owes { Owes V.told (V.facts value.old) (V.facts value.new) }
        ensures does { (drops : Bool) × (added : List HistoryEntry)
            × WhereTold V.told (Adds (session self.now) (V.facts value.old) (V.facts value.new) drops added)
            × does self.now item.now value.old value.new result drops added };
}

/// One of several turns: that of an item.
#[derive(Drop)]
pub(crate) struct TurnFor<'a, T, I> {
    pub turns: &'a T,
    pub item: &'a I,
}

impl<'a, V: Counted, I, T: Turns<V, I>> Turn<V> for TurnFor<'a, T, I> {
    type Answer = T::Answer;

    ghost session = { λ turn. T.session turn.turns.now };

    ghost does = { λ turn. T.does turn.turns.now turn.item.now };

    fn run(self, value: &mut V) -> T::Answer {
        self.turns.run(self.item, value)
    }
}
