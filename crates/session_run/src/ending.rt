// How what served is taken apart.
ghost use Rattle.std.specs.Prelude.{◌≡◌, [], ◌∷◌, Some};
ghost use Rattle.gateway_book.specs.Turning.{facts_of, tells_lists};
ghost use Rattle.job_inbox.specs.Hands.{AreSettled};
ghost use Rattle.job_inbox.specs.Inbox.{IsPassOf, knowledge};
ghost use Rattle.node_session.specs.Passes.{pass_of};
ghost use Rattle.turn_cell.specs.Cell.{ArePassesOf, begun, known_by, made_by};
ghost use Rattle.turn_cell.specs.Passes.{Ended};
ghost use Rattle.session_run.specs.Desks.{hand_at};
ghost use Rattle.session_run.specs.Ending.{HasSome};
ghost use Rattle.session_run.specs.Making.{HasRoomForTwo, HasTwo};

use crate::desk::Desk;
use area_disk::Area;
use gateway_book::Book;
use job_inbox::{Inbox, InboxPass};
use net_link::Link;
use turn_cell::{Pass, TurnCell};

// Ends an inbox with both its passes.
fn finish_inbox(inbox: Inbox, mut list: Vec<InboxPass>, push: InboxPass, pop: InboxPass)
    requires own { IsPassOf inbox push × IsPassOf inbox pop }
    requires two { HasTwo inbox }
    requires room { HasRoomForTwo list }
    ensures { AreSettled (knowledge push ∷ knowledge pop ∷ []) }
{
    list.push_reserved(push);
    list.push_reserved(pop);
    let Ok(()) = inbox.finish(list) else {
        unreachable!();
    };
}

/// Takes a session's desk apart, and ends its inbox.
pub(crate) fn leave<L: Link>(
    desk: Desk<L>,
    inbox: Inbox,
    list: Vec<InboxPass>,
    push: InboxPass,
) -> (Pass, L)
    requires pop { IsPassOf inbox desk.pass }
    requires push { IsPassOf inbox push }
    requires two { HasTwo inbox }
    requires room { HasRoomForTwo list }
    ensures pass { pass_of desk.worker ≡ Some result.0 }
    ensures link { result.1 ≡ desk.link }
    ensures settled { AreSettled (knowledge push ∷ hand_at desk ∷ []) }
{
    let Desk {
        worker,
        pass,
        link,
        last: _,
        stop: _,
        batch: _,
    } = desk;
    finish_inbox(inbox, list, push, pass);
    (worker.into_pass(), link)
}

/// Ends a cell with its five passes.
pub(crate) fn finish_cell<A: Area>(
    cell: TurnCell<Book<A>>,
    mut list: Vec<Pass>,
    sessions: (Pass, Pass, Pass, Pass),
    actor: Pass,
) -> Book<A>
    requires own { ArePassesOf cell (sessions.0 ∷ sessions.1 ∷ sessions.2 ∷ sessions.3 ∷ actor ∷ []) }
    requires five { made_by cell ≡ 5 }
    requires room { HasSome 0 list }
    ensures { Ended (tells_lists A.Area) (facts_of (begun cell)) (facts_of result)
        (known_by (sessions.0 ∷ sessions.1 ∷ sessions.2 ∷ sessions.3 ∷ actor ∷ [])) }
{
    let (first, second, third, fourth) = sessions;
    list.push_reserved(first);
    list.push_reserved(second);
    list.push_reserved(third);
    list.push_reserved(fourth);
    list.push_reserved(actor);
    let Ok(book) = cell.finish(list) else {
        unreachable!();
    };
    book
}
