//! The rule that the words, the slot and the seats of a cell keep, and what each step on them tells. These types are
//! for the proofs alone.
ghost use Rattle.std.specs.Prelude.{ℕ, [], Option, None};
ghost use Rattle.gw_base.specs.Facts.{Facts};
ghost use Rattle.turn_cell.specs.Knowing.{newcomers};
ghost use Rattle.turn_cell.specs.Rule.{Rule, nothing, seat};
ghost use Rattle.turn_cell.specs.Steps.{both, called, drew, first_alone, left, looked, settled, without_first};
ghost use Rattle.turn_cell.specs.declared.knowing.Stage.TheVariants.{Resting};

use crate::knowing::SeatView;
use crate::turn::Turn;
use atomic_table::{Join, Play, Split, TableRule};
use gw_base::Counted;
use std::marker::{Brand, PhantomData};
use std::snapshot::Snapshot;

/// What a cell was made with: its value, as it was then, and how many passes.
#[derive(Drop)]
pub struct Begun<V> {
    pub value: Snapshot<V>,
    pub passes: u32,
}

/// The rule of a cell.
pub struct CellRule;

impl<V: Counted> TableRule<Option<V>, SeatView, Begun<V>> for CellRule {
    ghost holds = { λ key. Rule V.told key.passes V.facts (V.facts key.value.value) };

    ghost first = { λ key. seat Resting (newcomers (V.facts key.value.value) key.passes) };
}

/// The turn, the value that it found and its answer, once each is there: what a step is told for the proof alone.
pub trait Named<T, V, A> {
    ghost turn: { Option T };

    ghost value: { Option V };

    ghost answer: { Option A };
}

impl<T, V, A> Named<T, V, A> for Brand {
    ghost turn = { None };

    ghost value = { None };

    ghost answer = { None };
}

/// How many passes a cell was made with, and the facts of its value then: what a step is told for the proof alone.
pub trait Origin {
    ghost made: { ℕ };

    ghost start: { Facts };
}

impl Origin for Brand {
    ghost made = { 0 };

    ghost start = { nothing };
}

pub(crate) struct Draw;

impl<V> Play<Option<V>, SeatView> for Draw {
    ghost then = { drew };
}

pub(crate) struct Call<J> {
    of: PhantomData<J>,
}

impl<V: Counted, J: Origin> Play<Option<V>, SeatView> for Call<J> {
    ghost then = { called V.facts V.told J.made J.start };
}

pub(crate) struct Settle<T, J> {
    of: PhantomData<(T, J)>,
}

impl<V: Counted, T: Turn<V>, J: Named<T, V, T::Answer>> Play<Option<V>, SeatView> for Settle<T, J> {
    ghost then = { settled V.facts V.told T.session T.does J.turn J.value J.answer };
}

pub(crate) struct Leave;

impl<V> Play<Option<V>, SeatView> for Leave {
    ghost then = { left };
}

pub(crate) struct Look;

impl<V: Counted> Play<Option<V>, SeatView> for Look {
    ghost then = { looked V.facts V.told };
}

pub(crate) struct First;

impl Split<SeatView> for First {
    ghost left = { without_first };

    ghost right = { first_alone };
}

pub(crate) struct Gather;

impl Join<SeatView> for Gather {
    ghost both = { both };

    ghost spent = { seat Resting [] };
}
