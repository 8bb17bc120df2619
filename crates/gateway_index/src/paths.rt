//! Where the nodes of an index send from.
ghost use Rattle.std.specs.Prelude.{◌≡◌, slice_get};
ghost use Rattle.gateway_index.specs.Index.{side_of};
ghost use Rattle.gateway_index.specs.Paths.{path_in, paths_in};

use crate::index::Index;
use gw_base::{Addr, NodeId};

impl Index {
    // Where a node sends from, if a Path opened its present epoch.
    #[tactic(auto, unfolding(crate::specs::Index::side_of))]
    fn path_of(&self, firm: bool, node: NodeId) -> Option<Addr>
        ensures { result ≡ path_in (side_of firm self.now) node }
    {
        match self.nodes.opening(firm, node) {
            Some(opening) => Some(Addr {
                ip: node.0,
                port: opening.port,
            }),
            None => None,
        }
    }

    /// Where the k-th of the nodes sends from whose present epoch a Path opened, counted from 0 in the order in which
    /// they became known; none where there are no more.
    pub fn path(&self, firm: bool, k: usize) -> Option<Addr>
        ensures { result ≡ slice_get (paths_in (side_of firm self.now)) k }
    {
        let mut left = k;
        for place in 0..self.nodes.count(firm) {
            let node = self.nodes.node(firm, place);
            let Some(path) = self.path_of(firm, node) else {
                continue;
            };
            if left == 0 {
                return Some(path);
            }
            left -= 1;
        }
        None
    }
}
