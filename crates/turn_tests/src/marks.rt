// Turns that record a Tick and a Close, as a gateway's clock and its end ask for them.
ghost use Rattle.std.specs.Prelude.{◌≡◌};
ghost use Rattle.turn_cell.specs.Cell.{IsPassOf, knowledge};

use area_disk::{Area, MemoryArea};
use gateway_book::laws::a_turn_owes;
use gateway_book::{Book, Marked};
use gw_base::{Caller, Moment};
use std::sync::Wait;
use turn_cell::{Pass, Turn, TurnCell};

// Records a Tick or a Close, where one is due.
#[derive(Drop)]
struct Marking {
    closes: bool,
    who: Caller,
    now: Moment,
}

impl<A: Area> Turn<Book<A>> for Marking {
    ghost use Rattle.std.specs.Prelude.{◌≡◌, ◌≢◌, Some, true};
    ghost use Rattle.gateway_book.specs.Caller.{IsMarkTold};
    ghost use Rattle.gateway_book.specs.declared.outcome.Marked.TheVariants.{NoRoom};

    type Answer = Marked;

    ghost session = { λ turn. Some turn.who.session };

    ghost does = { λ turn found left answer drops added.
        IsMarkTold left answer × (turn.closes ≡ true → answer ≢ NoRoom) };

    fn run(self, value: &mut Book<A>) -> Marked {
        a_turn_owes::<A>();
        if self.closes {
            value.close(self.now, self.who)
        } else {
            value.tick(self.now, self.who)
        }
    }
}

// Records a Tick or a Close.
fn mark_once<R: Wait>(
    rt: &R,
    cell: &TurnCell<Book<MemoryArea>>,
    pass: Pass,
    closes: bool,
    who: Caller,
    now: Moment,
) -> (Marked, Pass)
    requires own { IsPassOf cell.now pass }
    requires session { who.session ≡ (knowledge pass).number }
    ensures own { IsPassOf cell.now result.1 }
    ensures same { (knowledge result.1).number ≡ (knowledge pass).number }
{
    cell.with(rt, pass, Marking { closes, who, now })
}

/// What became of a Tick, of a Close, and of another Close.
#[derive(Clone, Copy)]
pub(crate) struct Marks {
    pub tick: Marked,
    pub close: Marked,
    pub another: Marked,
}

/// Asks for a Tick, a Close and another Close at one moment.
pub(crate) fn mark<R: Wait>(
    rt: &R,
    cell: &TurnCell<Book<MemoryArea>>,
    pass: Pass,
    session: u32,
    now: Moment,
) -> (Marks, Pass)
    requires own { IsPassOf cell.now pass }
    requires session { session ≡ (knowledge pass).number }
    ensures { IsPassOf cell.now result.1 }
{
    let who = Caller { session, serial: 0 };
    let (tick, pass) = mark_once(rt, cell, pass, false, who, now);
    let (close, pass) = mark_once(rt, cell, pass, true, who, now);
    let (another, pass) = mark_once(rt, cell, pass, true, who, now);
    let marks = Marks {
        tick,
        close,
        another,
    };
    (marks, pass)
}
