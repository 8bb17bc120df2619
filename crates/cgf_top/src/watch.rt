//! Who is told how far a job is: nobody, or of a loop the one who watches the job.
use cgf_jobs::{NodeTurn, Watch};
use loop_run::{LoopSetup, NodeWatch};
use node_core::Node;

/// Nobody is told.
#[derive(Drop)]
pub(crate) struct Nobody;

impl Watch for Nobody {
    fn ran(&mut self, _lines: u64, _all: u64) {}

    fn turned(&self, _turn: NodeTurn) {}
}

/// Who is told of the nodes of a loop.
#[derive(Drop)]
pub(crate) struct LoopWatch<'a, W: Watch> {
    pub setup: LoopSetup,
    pub watch: &'a W,
}

impl<W: Watch> NodeWatch for LoopWatch<'_, W> {
    fn turned(&self, place: usize, node: &Node) {
        let LoopSetup { nodes, packets, .. } = self.setup;
        self.watch.turned(NodeTurn {
            place,
            done: node.counts().done,
            all: u64::from(nodes).saturating_mul(u64::from(packets)),
            favourite: node.favourite(),
        });
    }
}
