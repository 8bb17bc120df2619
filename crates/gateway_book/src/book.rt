// A gateway's book.
ghost use Rattle.std.proofs.Props.{props};
ghost use Rattle.gateway_book.specs.Followed.{IsFollowed};
ghost use Rattle.gateway_book.specs.Standing.{HasCursor, IsCounting};
ghost use Rattle.gateway_book.specs.FollowedProps.{AllFit-prop, Follows-prop};

use crate::cursor::Cursor;
use area_disk::Area;
use cgf_journal::Trail;
use gateway_answer::Scratch;
use gateway_index::Index;

/// A gateway: its history on a journal, with an index.
///
/// An answer may wait for its entry to be firm: `commit` makes all entries firm, and `settled` tells whether an
/// answer may be sent. After a commit that fails the book is broken: its history is the firm part, and the next call
/// that changes it first opens the journal again, so that the entries that were torn off stand or don't.
#[derive(Drop)]
pub struct Book<A: Area> {
    pub(crate) trail: Trail<A>,
    pub(crate) index: Index,
    pub(crate) scratch: Scratch,
    /// For how many seconds a file may stay open.
    pub(crate) open_time: u64,
    /// How many commits and openings again have failed.
    pub(crate) cuts: u64,
    /// How many entries were firm when the first of them failed.
    pub(crate) kept: u64,
    /// How far its items were told.
    pub(crate) cursor: Cursor,
    ghost followed: { IsFollowed trail index } by { Prim.hlevel (AllFit-prop, Follows-prop, props) },
    ghost stands: { HasCursor trail cursor },
    ghost counts: { IsCounting trail cuts kept },
}
