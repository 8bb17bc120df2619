//! How a cell and its passes are made.
ghost use Rattle.std.specs.Prelude.{◌≡◌, ◌<◌, ◌≤◌, [], ◌∷◌, IfOk, IfErr, vec_len, vec_capacity};
ghost use Rattle.turn_cell.specs.Cell.{AreNew, AreResting, IsResting, begun, known_at, knowledge, made_by};
ghost use Rattle.turn_cell.specs.Knowing.{newcomers};

use crate::cell::{CellTable, Pass, Place, TurnCell, Words};
use crate::rule::{Begun, First};
use atomic_table::{Refused, Table};
use gw_base::Counted;
use std::alloc::Global;
use std::snapshot::Snapshot;
use std::sync::atomic::AtomicU64;

impl Pass {
    // The pass in its cell.
    pub(crate) fn into_place<V>(self) -> Place<V>
        ensures own { result.table_id ≡ self.badge.table_id }
        ensures rests { IsResting result (knowledge self) }
    {
        let Pass { badge } = self;
        badge.into_seat()
    }

    // The pass again.
    pub(crate) fn of<V>(place: Place<V>) -> Pass
        requires { IsResting place (known_at place) }
        ensures own { result.badge.table_id ≡ place.table_id }
        ensures knows { knowledge result ≡ known_at place }
    {
        Pass {
            badge: place.into_badge(),
        }
    }
}

// The table, with the value in its slot and with a seat that has all passes. Without memory the value comes back.
fn lay<V: Counted>(alloc: Global, value: V, passes: u32) -> Result<(CellTable<V>, Place<V>), V>
    requires some { 0 < passes }
    ensures size { IfOk result (λ made. (made.0.shared.table_id.words ≡ 3) × (made.0.shared.table_id.slots ≡ 1)) }
    ensures key { IfOk result (λ made. (made.0.shared.key.passes ≡ passes) × (made.0.shared.key.value.value ≡ value)) }
    ensures own { IfOk result (λ made. made.1.table_id ≡ made.0.shared.table_id) }
    ensures place { IfOk result (λ made. AreResting made.1 (newcomers (V.facts value) passes)) }
    ensures err { IfErr result (λ back. back ≡ value) }
{
    let Ok(mut slots) = Vec::with_capacity(alloc, 1) else {
        return Err(value);
    };
    let words = [0, 0, value.length()];
    let about = Begun {
        value: Snapshot::of(&value),
        passes,
    };
    slots.push_reserved(Some(value));
    match Table::new(alloc, &words, slots, &about) {
        Ok(made) => Ok(made),
        Err(Refused { mut slots }) => {
            let Some(Some(value)) = slots.pop() else {
                unreachable!()
            };
            slots.destroy_empty();
            Err(value)
        }
    }
}

// Gives each pass a seat of its own, into a list that has room for them.
fn make<V: Counted>(words: &Words<V>, mut place: Place<V>, all: &mut Vec<Pass>, count: u32)
    requires own { place.table_id ≡ words.now.table_id }
    requires size { words.now.table_id.words ≡ 3 }
    requires made { count ≡ words.now.key.passes }
    requires place { AreResting place (newcomers (V.facts words.now.key.value.value) count) }
    requires room { (all.old.items ≡ []) × (vec_len all.old ≡ 0) × (count ≤ vec_capacity all.old) }
    ensures all { AreNew words.now.table_id (V.facts words.now.key.value.value) count all.new.items }
{
    for _ in 0..count {
        let pass = words.split_seat::<First>(&mut place);
        all.push_reserved(Pass::of(pass));
    }
}

impl<V: Counted> TurnCell<V> {
    /// A cell with this value, and so many passes to it. For want of memory the value comes back.
    pub fn new(alloc: Global, value: V, passes: u32) -> Result<(TurnCell<V>, Vec<Pass>), V>
        requires some { 0 < passes }
        ensures cell { IfOk result (λ made. (made_by made.0 ≡ passes) × (begun made.0 ≡ value)) }
        ensures passes { IfOk result (λ made.
            AreNew made.0.table.shared.table_id (V.facts value) passes made.1.items) }
        ensures err { IfErr result (λ back. back ≡ value) }
    {
        let Ok(mut all) = Vec::with_capacity(alloc, passes as usize) else {
            return Err(value);
        };
        let (table, place) = lay(alloc, value, passes)?;
        make(&table.shared, place, &mut all, passes);
        let cell = TurnCell {
            table,
            made: passes,
            sleepers: AtomicU64::new(0),
        };
        Ok((cell, all))
    }
}
