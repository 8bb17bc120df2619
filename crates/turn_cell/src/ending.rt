//! How a cell is ended, and its value handed back.
ghost use Rattle.std.specs.Prelude.{◌≡◌, ◌<◌, ◌≤◌, ◌++◌, IfErr, IfOk, OnErr, OnOk, vec_len, length};
ghost use Rattle.turn_cell.specs.Cell.{AreIn, ArePassesOf, AreResting, begun, known_by, made_by};
ghost use Rattle.turn_cell.specs.Passes.{Ended};

use crate::cell::{CellTable, Missing, Pass, Place, TurnCell, Words};
use crate::rule::Gather;
use gw_base::Counted;

// Takes all passes into the seat of one.
fn gather<V: Counted>(words: &Words<V>, place: &mut Place<V>, mut passes: Vec<Pass>)
    requires own { place.old.table_id ≡ words.now.table_id }
    requires size { words.now.table_id.words ≡ 3 }
    requires rests { AreResting place.old place.old.me.0.passes }
    requires passes { AreIn words.now.table_id passes.items }
    ensures same { place.new.table_id ≡ place.old.table_id }
    ensures all { AreResting place.new (known_by passes.items ++ place.old.me.0.passes) }
{
    while let Some(pass) = passes.pop() {
        words.join_seat::<Gather>(place, pass.into_place());
    }
}

// One seat, which has all these passes.
fn whole<V: Counted>(words: &Words<V>, mut passes: Vec<Pass>) -> Place<V>
    requires size { words.now.table_id.words ≡ 3 }
    requires passes { AreIn words.now.table_id passes.items }
    requires some { 0 < vec_len passes }
    ensures own { result.table_id ≡ words.now.table_id }
    ensures all { AreResting result (known_by passes.items) }
{
    let Some(last) = passes.pop() else {
        unreachable!()
    };
    let mut place = last.into_place();
    gather(words, &mut place, passes);
    place
}

// Takes the value out of a cell whose passes are all in one seat.
fn close<V: Counted>(table: CellTable<V>, place: Place<V>) -> V
    requires own { place.table_id ≡ table.shared.table_id }
    requires size { (table.shared.table_id.words ≡ 3) × (table.shared.table_id.slots ≡ 1) }
    requires rests { AreResting place place.me.0.passes }
    requires all { table.shared.key.passes ≤ length place.me.0.passes }
    ensures ended { Ended V.told (V.facts table.shared.key.value.value) (V.facts result) place.me.0.passes }
    ensures count { table.shared.key.passes ≡ length place.me.0.passes }
{
    let mut closed = table.close_with(place);
    let Some(value) = closed.take(0) else {
        unreachable!()
    };
    closed.free();
    value
}

impl<V: Counted> TurnCell<V> {
    /// Ends the cell and hands its value back, where all its passes are given. Else cell and passes come back as they
    /// were. It takes no memory.
    pub fn finish(self, passes: Vec<Pass>) -> Result<V, (Missing, TurnCell<V>, Vec<Pass>)>
        requires own { ArePassesOf self passes.items }
        ensures all { OnOk result (made_by self ≡ vec_len passes) }
        ensures ended { IfOk result (λ value.
            Ended V.told (V.facts (begun self)) (V.facts value) (known_by passes.items)) }
        ensures fewer { OnErr result (vec_len passes < made_by self) }
        ensures missing { IfErr result (λ back. (back.0.wanted ≡ made_by self) × (back.0.given ≡ vec_len passes)) }
        ensures back { IfErr result (λ back. (back.1 ≡ self) × (back.2 ≡ passes)) }
    {
        if passes.len() < self.made as usize {
            let missing = Missing {
                wanted: self.made,
                given: passes.len() as u32,
            };
            return Err((missing, self, passes));
        }
        let TurnCell {
            table,
            made: _,
            sleepers: _,
        } = self;
        let place = whole(&table.shared, passes);
        Ok(close(table, place))
    }
}
