//! What a book tells without reading its area.
ghost use Rattle.std.specs.Prelude.{◌≡◌, slice_get};
ghost use Rattle.gate_journal.specs.Moments.{Told};
ghost use Rattle.cgf_journal.specs.Trail.{is_closed};
ghost use Rattle.gateway_index.specs.Index.{observed_by, side_of};
ghost use Rattle.gateway_index.specs.Paths.{paths_in};
ghost use Rattle.gateway_answer.specs.Told.{key_of, paths_of};
ghost use Rattle.gateway_answer.specs.Value.{history_of};
ghost use Rattle.gateway_book.specs.Lookups.{key_seen};

use crate::book::Book;
use crate::observed::an_index_is_enough;
use area_disk::Area;
use gateway_answer::Key;
use gateway_index::Index;
use gateway_index::laws::an_index_tells_its_history;
use gw_base::{Addr, NodeId, nearest_number};

// What a number on the wire means in a node's present epoch.
fn key(index: &Index, firm: bool, node: NodeId, wire: u16) -> Key
    ensures { result ≡ key_seen (observed_by firm index.now node) wire }
{
    let number = nearest_number(index.top(firm, node), wire);
    Key {
        start: match index.opening(firm, node) {
            Some(opening) => opening.counter,
            None => 0,
        },
        number,
        state: index.state(firm, node, number),
    }
}

impl<A: Area> Book<A> {
    ghost use Rattle.gateway_book.specs.Book.{value_of};
    ghost use Rattle.gateway_book.specs.Comes.{LeavesFit};

    /// Whether the last commit or opening again failed, so that the next call that changes the book first opens its
    /// journal again.
    pub fn is_broken(&self) -> bool
        ensures broken { result ≡ (value_of self.now).is_broken }
        // What a crash leaves between two calls.
        ensures leaves { LeavesFit self.now }
    {
        self.trail.is_closed()
    }

    /// Where the k-th of the nodes sends from whose present epoch a Path opened, counted from 0 in the order in which
    /// entries first named them; none where there are no more. Of a broken book the firm part tells. It reads nothing
    /// and takes no memory.
    pub fn path(&self, k: usize) -> Option<Addr>
        ensures told { Told A.Area → result ≡ slice_get (paths_of (history_of (value_of self.now))) k }
        ensures counted { result ≡ slice_get (paths_in (side_of (is_closed self.now.trail) self.now.index)) k }
    {
        an_index_tells_its_history();
        self.index.path(self.trail.is_closed(), k)
    }

    /// What a number on the wire means in a node's present epoch: the start of that epoch, the request number that is
    /// meant, and its state. Of a broken book it is told by the firm part. It reads nothing and takes no memory.
    pub fn key(&self, node: NodeId, wire: u16) -> Key
        ensures told { Told A.Area → result ≡ key_of (history_of (value_of self.now)) node wire }
        ensures counted { result ≡ key_seen (observed_by (is_closed self.now.trail) self.now.index node) wire }
    {
        an_index_is_enough();
        let firm = self.trail.is_closed();
        key(&self.index, firm, node, wire)
    }
}
