// How the files are written while sessions serve.
ghost use Rattle.file_writer.specs.declared.writer.Writer.{Writer};
ghost use Rattle.gateway_book.specs.Turning.{tells_lists};
ghost use Rattle.node_session.specs.Writing.{IsActorOf, IsWriterOf, knowledge_of, writer_of};
ghost use Rattle.session_run.specs.Desks.{Began};
ghost use Rattle.session_run.specs.Filing.{HasWritten};

use crate::desks::idle;
use crate::signals::Signals;
use area_disk::Area;
use cdr_shelf::Shelf;
use gateway_answer::laws::filed_records_stay;
use gateway_book::Book;
use node_session::{FileActor, Filing};
use std::alloc::Global;
use std::sync::Wait;
use std::time::Clock;
use turn_cell::TurnCell;

/// How many items a step takes at most.
const MANY: u64 = 64;

/// Takes firm items to the writer of files, up to the first time, after all sessions have ended, that there was none.
pub(crate) fn write_files<A: Area, F: Shelf, R: Wait + Clock>(
    rt: &R,
    alloc: Global,
    cell: &TurnCell<Book<A>>,
    signals: &Signals,
    actor: FileActor<F>,
) -> FileActor<F>
    requires own { IsActorOf cell.now actor }
    requires writer { IsWriterOf (tells_lists A.Area) (knowledge_of actor).known (writer_of actor) }
    ensures own { IsActorOf cell.now result }
    ensures writer { IsWriterOf (tells_lists A.Area) (knowledge_of result).known (writer_of result) }
    ensures written { (began : Began) (first : Writer F F.Shelf) →
        HasWritten F.Shelf (tells_lists A.Area) began first actor →
        HasWritten F.Shelf (tells_lists A.Area) began first result }
{
    let mut actor = actor;
    for _ in rt.forever() {
        let is_last = signals.have_ended();
        let (has_taken, now) = write_next(rt, alloc, cell, actor);
        actor = now;
        if !has_taken {
            if is_last {
                break;
            }
            idle(rt);
        }
    }
    actor
}

// Lets the thread rest behind a step that took items, but fewer than it may: it takes more together then, and holds up
// the sessions less often.
fn rest<R: Clock>(rt: &R, items: u64) {
    if items > 0 && items < MANY {
        idle(rt);
    }
}

// Takes some firm items to the writer of files, and tells whether there were any.
fn write_next<A: Area, F: Shelf, R: Wait + Clock>(
    rt: &R,
    alloc: Global,
    cell: &TurnCell<Book<A>>,
    actor: FileActor<F>,
) -> (bool, FileActor<F>)
    requires own { IsActorOf cell.now actor }
    requires writer { IsWriterOf (tells_lists A.Area) (knowledge_of actor).known (writer_of actor) }
    ensures own { IsActorOf cell.now result.1 }
    ensures writer { IsWriterOf (tells_lists A.Area) (knowledge_of result.1).known (writer_of result.1) }
    ensures written { (began : Began) (first : Writer F F.Shelf) →
        HasWritten F.Shelf (tells_lists A.Area) began first actor →
        HasWritten F.Shelf (tells_lists A.Area) began first result.1 }
{
    filed_records_stay();
    let mut actor = actor;
    let has_taken = match actor.step(rt, alloc, cell) {
        Filing::Took { items } => {
            rest(rt, items);
            items > 0
        }
        Filing::Area | Filing::Shelf | Filing::NoMemory => false,
    };
    (has_taken, actor)
}
