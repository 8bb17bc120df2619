//! Where the copies lie that a history holds.
ghost use Rattle.std.specs.Prelude.{◌≡◌, Some, None, OnOk, OnErr};
ghost use Rattle.gw_base.specs.Entry.{act_view};
ghost use Rattle.gateway_book.specs.HeldCopies.{copies_after, copy_at, hold_in, if_after, no_copies, path_in, places_of, with_hold, with_path, without_holds};

use gw_base::{Absolute, Act, NoMemory, NodeId};
use std::alloc::Global;
use std::collections::BTreeMap;

/// What a copy is found by: its node's address and its number.
#[derive(Clone, Copy, PartialEq, Eq, PartialOrd, Ord)]
struct CopyKey {
    node: u32,
    number: Absolute,
}

// The entry that is kept of a node's number.
fn hold_of(holds: &BTreeMap<CopyKey, u64>, node: u32, number: Absolute) -> Option<u64>
    ensures { result ≡ hold_in holds.now node number }
{
    holds.get(&CopyKey { node, number }).copied()
}

// The last Path of a node.
fn path_of(paths: &BTreeMap<u32, u64>, node: u32) -> Option<u64>
    ensures { result ≡ path_in paths.now node }
{
    paths.get(&node).copied()
}

// Keeps the entry that holds a node's number. Without memory nothing changes.
fn hold(
    holds: &mut BTreeMap<CopyKey, u64>,
    node: u32,
    number: Absolute,
    k: u64,
) -> Result<(), NoMemory>
    ensures ok { OnOk result (hold_in holds.new ≡ with_hold node number (Some k) (hold_in holds.old)) }
    ensures err { OnErr result (hold_in holds.new ≡ hold_in holds.old) }
{
    match holds.insert(CopyKey { node, number }, k) {
        Ok(_) => Ok(()),
        Err(_) => Err(NoMemory),
    }
}

// Keeps none for a node's number.
fn forget(holds: &mut BTreeMap<CopyKey, u64>, node: u32, number: Absolute)
    ensures { hold_in holds.new ≡ with_hold node number None (hold_in holds.old) }
{
    holds.remove(&CopyKey { node, number });
}

// Keeps none for these numbers of a node.
fn forget_all(holds: &mut BTreeMap<CopyKey, u64>, node: u32, numbers: &[Absolute])
    ensures { hold_in holds.new ≡ without_holds node numbers.now (hold_in holds.old) }
{
    for number in numbers {
        forget(holds, node, *number);
    }
}

// Keeps the last Path of a node. Without memory nothing changes.
fn follow(paths: &mut BTreeMap<u32, u64>, node: u32, k: u64) -> Result<(), NoMemory>
    ensures ok { OnOk result (path_in paths.new ≡ with_path node k (path_in paths.old)) }
    ensures err { OnErr result (path_in paths.new ≡ path_in paths.old) }
{
    match paths.insert(node, k) {
        Ok(_) => Ok(()),
        Err(_) => Err(NoMemory),
    }
}

// The entry that holds a copy, where it comes after the node's last Path.
fn if_after(path: Option<u64>, hold: Option<u64>) -> Option<u64>
    ensures { result ≡ if_after path hold }
{
    let Some(path) = path else {
        return hold;
    };
    let hold = hold?;
    if path < hold { Some(hold) } else { None }
}

/// Where the copies lie that a history holds, by the numbers of its entries. It is kept entry by entry.
#[derive(Drop)]
pub(crate) struct HeldCopies {
    /// The entries that hold a node's number, where no later one names the number.
    holds: BTreeMap<CopyKey, u64>,
    /// The last Path of each node.
    paths: BTreeMap<u32, u64>,
}

impl HeldCopies {
    /// No copies, which take no memory.
    pub(crate) fn new(alloc: Global) -> HeldCopies
        ensures { places_of result ≡ no_copies }
    {
        HeldCopies {
            holds: BTreeMap::new(alloc),
            paths: BTreeMap::new(alloc),
        }
    }

    /// The entry that holds a node's number in the node's present epoch.
    pub(crate) fn find(&self, node: NodeId, number: Absolute) -> Option<u64>
        ensures { result ≡ copy_at (places_of self.now) node.0 number }
    {
        if_after(
            path_of(&self.paths, node.0),
            hold_of(&self.holds, node.0, number),
        )
    }

    /// Takes in one more entry, the k-th. Without memory nothing changes.
    pub(crate) fn note(&mut self, k: u64, act: &Act<'_>) -> Result<(), NoMemory>
        ensures ok { OnOk result (places_of self.new ≡ copies_after k (act_view act.now) (places_of self.old)) }
        ensures err { OnErr result (places_of self.new ≡ places_of self.old) }
    {
        match *act {
            Act::Path { node, .. } => follow(&mut self.paths, node.0, k),
            Act::Hold { node, number, .. } => hold(&mut self.holds, node.0, number, k),
            Act::File { node, number, .. } => {
                forget(&mut self.holds, node.0, number);
                Ok(())
            }
            Act::Seal { node, number } => {
                forget(&mut self.holds, node.0, number);
                Ok(())
            }
            Act::Release { node, numbers } => {
                forget_all(&mut self.holds, node.0, numbers);
                Ok(())
            }
            Act::Cancel { node, numbers } => {
                forget_all(&mut self.holds, node.0, numbers);
                Ok(())
            }
            Act::Start | Act::Tick | Act::Close => Ok(()),
        }
    }
}
