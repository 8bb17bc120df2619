//! The cell and its passes.
ghost use Rattle.std.specs.Prelude.{◌≡◌, ◌<◌, [], ◌∷◌};
ghost use Rattle.turn_cell.specs.Rule.{known_in, seat};
ghost use Rattle.turn_cell.specs.declared.knowing.Stage.TheVariants.{Resting};

use crate::knowing::SeatView;
use crate::rule::{Begun, CellRule};
use atomic_table::{Badge, Seat, Shared, Table};
use gw_base::Counted;
use std::alloc::Global;
use std::sync::atomic::AtomicU64;

/// A pass to a cell: who has it can take turns, one after the other. It takes no memory.
#[derive(Drop)]
pub struct Pass {
    pub(crate) badge: Badge<SeatView>,
    ghost rests: { badge.views ≡ seat Resting (known_in badge.views ∷ []) ∷ [] },
}

// A pass in its cell: it may take the value out of the slot.
pub(crate) type Place<V> = Seat<Option<V>, SeatView>;

pub(crate) type Words<V> = Shared<Option<V>, SeatView, Begun<V>, CellRule>;

pub(crate) type CellTable<V> = Table<Option<V>, SeatView, Begun<V>, CellRule, Global>;

/// One value that many passes take in turn, in the order in which they asked for it. It knows how many of them sleep
/// until their turn comes.
#[derive(Drop)]
pub struct TurnCell<V: Counted> {
    pub(crate) table: CellTable<V>,
    pub(crate) made: u32,
    pub(crate) sleepers: AtomicU64,
    ghost sized: { (table.shared.table_id.words ≡ 3) × (table.shared.table_id.slots ≡ 1) },
    ghost counted: { made ≡ table.shared.key.passes },
    ghost some: { 0 < made },
}

/// Fewer passes are given than were made.
#[derive(Clone, Copy, Debug)]
pub struct Missing {
    pub wanted: u32,
    pub given: u32,
}

/// The word that says how many tickets were drawn.
pub(crate) const DRAWN: usize = 0;

/// The word that says whose turn it is.
pub(crate) const SERVED: usize = 1;

/// The word that says the length that never falls.
pub(crate) const LENGTH: usize = 2;
