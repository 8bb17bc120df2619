// What an entry says fits the fields of its spelling, since it has their types.
ghost use Rattle.std.specs.Prelude.{◌<◌, ◌^◌};
ghost use Rattle.gw_base.specs.Entry.{act_view, entry_view};
ghost use Rattle.entry_codec.specs.Spelling.{AreBelow, HasSpelling, IsAct, entry_length};

use gw_base::{Absolute, Act, Caller, Entry, NodeId};

// Octets are below 256.
fn octets_fit(octets: &[u8])
    ensures { AreBelow 256 octets.now }
{}

// Numbers fit eight octets each.
fn numbers_fit(numbers: &[Absolute])
    ensures { AreBelow (2 ^ 64) numbers.now }
{}

// A node's address fits its field.
fn node_fits(node: NodeId)
    ensures { node.0 < 2 ^ 32 }
{
    let _address = node.0;
}

// A path's parts fit their fields.
fn path_fits(node: NodeId, port: u16, counter: u8)
    ensures { (node.0 < 2 ^ 32) × (port < 2 ^ 16) × (counter < 2 ^ 8) }
{
    node_fits(node);
}

// A key's parts fit their fields.
fn key_fits(node: NodeId, number: Absolute)
    ensures { (node.0 < 2 ^ 32) × (number < 2 ^ 64) }
{
    node_fits(node);
}

// A caller's numbers fit their fields.
fn caller_fits(caller: Caller)
    ensures session { caller.session < 2 ^ 32 }
    ensures serial { caller.serial < 2 ^ 64 }
{
    let _numbers = (caller.session, caller.serial);
}

// What an act says fits its fields, since it has their types.
fn act_fits(act: &Act<'_>)
    ensures { IsAct (act_view act.now) }
{
    match *act {
        Act::Start | Act::Tick | Act::Close => {}
        Act::Path {
            node,
            port,
            counter,
        } => path_fits(node, port, counter),
        Act::File {
            node,
            number,
            packet,
        }
        | Act::Hold {
            node,
            number,
            packet,
        } => {
            key_fits(node, number);
            octets_fit(packet);
        }
        Act::Seal { node, number } => key_fits(node, number),
        Act::Release { node, numbers } | Act::Cancel { node, numbers } => {
            node_fits(node);
            numbers_fit(numbers);
        }
    }
}

/// A short entry has a spelling.
pub(crate) fn entry_fits(entry: &Entry<'_>)
    requires { entry_length (entry_view entry.now) < 2 ^ 32 }
    ensures { HasSpelling (entry_view entry.now) }
{
    caller_fits(entry.caller);
    act_fits(&entry.act);
    let _seconds = entry.moment.seconds();
}
