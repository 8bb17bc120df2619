//! Laws of the definitions that public clauses cite. Each stands on a function that does nothing.
ghost use Rattle.std.specs.Prelude.{◌≡◌, ◌++◌, List, Option, ℕ};
ghost use Rattle.area_disk.specs.Disk.{Rose};
ghost use Rattle.gw_base.specs.Owes.{Begins};
ghost use Rattle.gw_base.specs.declared.history.HistoryEntry.{HistoryEntry};
ghost use Rattle.net_link.specs.Datagrams.{Datagram, joined};
ghost use Rattle.net_link.specs.Making.{GrowsBy};
ghost use Rattle.session_run.specs.History.{AnswerInTurn, ReplyInTurn};
ghost use Rattle.session_run.specs.Latest.{Jobs};
ghost use Rattle.session_run.specs.Links.{sent_with};
ghost use Rattle.session_run.specs.Running.{sent_by};
ghost use Rattle.turn_cell.specs.Placed.{placed};

use net_link::Link;

/// The first of entries that answer in turn do so, and all do where more was heard before. So do replies, and where more
/// is firm behind.
pub fn what_is_in_turn_stays_so()
    ensures front { (size : ℕ) (heard : Option (List Datagram)) (jobs : Jobs)
        (before first last : List HistoryEntry) →
        AnswerInTurn size heard jobs (placed before (first ++ last)) →
        AnswerInTurn size heard jobs (placed before first) }
    ensures heard { (size : ℕ) (jobs : Jobs) (entries : List (HistoryEntry × List HistoryEntry))
        (earlier heard all : Option (List Datagram)) → GrowsBy earlier heard all →
        AnswerInTurn size heard jobs entries → AnswerInTurn size all jobs entries }
    ensures replies { (size : ℕ) (firm later : List HistoryEntry) (before now before' now' : ℕ)
        (earlier heard all sent : Option (List Datagram)) → Begins firm later →
        (Rose before now → Rose before' now') → GrowsBy earlier heard all →
        ReplyInTurn size firm before now heard sent → ReplyInTurn size later before' now' all sent }
{}

/// What links sent, given back, stands behind what was sent of their address before.
pub fn what_links_sent<L: Link>()
    ensures { (told : Option (List Datagram)) (links : List L) →
        sent_with L.Link told links ≡ joined told (sent_by L.Link links) }
{}
