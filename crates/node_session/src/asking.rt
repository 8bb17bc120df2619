// What has become of an answer.
ghost use Rattle.std.specs.List.{Contains};
ghost use Rattle.turn_cell.specs.Cell.{IsPassOf, knowledge};
ghost use Rattle.turn_cell.specs.declared.knowing.KeptTurn.{KeptTurn};
ghost use Rattle.gateway_book.specs.Turning.{tells_lists};
ghost use Rattle.node_session.specs.Asking.{IsAsked};
ghost use Rattle.node_session.specs.Learning.{IsCountedBy, Learns};

use crate::committing::Committing;
use area_disk::Area;
use gateway_book::{Book, Settled};
use std::sync::Wait;
use turn_cell::{Pass, TurnCell};

/// What has become of an answer with the numbers of this receipt: the pass looks at the length that never falls, and
/// where that isn't enough takes a turn that asks the book, and commits where the front isn't firm yet.
pub(crate) fn ask<A: Area, R: Wait>(
    rt: &R,
    cell: &TurnCell<Book<A>>,
    pass: Pass,
    front: u64,
    faults: u64,
) -> (Settled, Pass)
    requires own { IsPassOf cell.now pass }
    ensures own { IsPassOf cell.now result.1 }
    ensures asked { IsAsked A.Area front faults (knowledge pass) result.0 (knowledge result.1) }
    ensures learns { (t : KeptTurn) → Contains (knowledge pass).turns t →
        IsCountedBy (tells_lists A.Area) front faults t →
        Learns (tells_lists A.Area) t (knowledge pass) (knowledge result.1) result.0 }
{
    let (seen, looked) = cell.seen(pass);
    if front <= seen {
        return (Settled::Firm, looked);
    }
    cell.with(rt, looked, Committing { front, faults })
}
