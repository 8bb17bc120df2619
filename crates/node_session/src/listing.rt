// Items are told in a turn.
use area_disk::Area;
use gateway_book::laws::a_turn_owes;
use gateway_book::{Book, ItemsFault};
use gw_base::Item;
use std::alloc::Global;
use turn_cell::Turn;

/// The turn that tells a writer of files the items from a number on, so many at most. It names no session.
#[derive(Drop)]
pub(crate) struct Listing {
    pub alloc: Global,
    pub from: u64,
    pub max: u32,
}

impl<A: Area> Turn<Book<A>> for Listing {
    ghost use Rattle.std.specs.Prelude.{None};
    ghost use Rattle.gateway_book.specs.Turning.{facts_of, tells_lists};
    ghost use Rattle.node_session.specs.Turns.{HasListed};

    type Answer = Result<Vec<Item>, ItemsFault>;

    ghost session = { λ turn. None };

    ghost does = { λ turn found left answer drops added. HasListed (tells_lists A.Area) turn.from turn.max
        (facts_of found) (facts_of left) answer (λ items. items.items) added };

    fn run(self, value: &mut Book<A>) -> Result<Vec<Item>, ItemsFault> {
        a_turn_owes::<A>();
        value.items(self.alloc, self.from, self.max)
    }
}
