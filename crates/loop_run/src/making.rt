// Nodes and gateways that are made, with their links.
ghost use Rattle.std.specs.Prelude.{◌≡◌, ◌≤◌, ◌<◌, IfErr, IfOk, length, true};
ghost use Rattle.file_writer.specs.Writer.{is_broken};
ghost use Rattle.session_run.specs.Links.{stopped_by};
ghost use Rattle.loop_run.specs.Making.{FailsToMake, HasMadeGateway, HasMadeNode};

use crate::addresses::{gateway_at, node_at, node_ip};
use crate::books::{OPEN_TIME, open_book};
use area_disk::QuietArea;
use cdr_file::Offset16;
use cdr_shelf::QuietShelf;
use file_rotate::Limits;
use file_writer::Writer;
use gw_base::Addr;
use net_link::{LinkStop, Links};
use node_core::{Node, Port};
use node_run::LinkedNode;
use route_filter::Rules;
use session_run::{Gateway, Stop, give_back, make_links};
use std::alloc::Global;

/// The restart counter of each node.
const COUNTER: u8 = 1;

/// Why something isn't made whose link stopped.
fn stop_of(stop: LinkStop) -> Stop
    ensures { result ≡ stopped_by stop }
{
    match stop {
        LinkStop::Failed => Stop::Link,
        LinkStop::NoMemory => Stop::NoMemory,
    }
}

/// The node in a place, with a new link at the address of each of its ports.
pub(crate) fn make_node<L: Links>(
    alloc: Global,
    gateways: &[Addr],
    place: u8,
    links: &mut L,
) -> Result<LinkedNode<L::Link>, Stop>
    requires some { 1 ≤ length gateways.now }
    requires most { length gateways.now ≤ 4 }
    requires place { place < 8 }
    ensures made { IfOk result (HasMadeNode L.Link.Link gateways.now place (L.state links.old) (L.state links.new)) }
    ensures err { IfErr result (FailsToMake (L.state links.old) (L.state links.new)) }
{
    let Ok(node) = Node::new(alloc, node_ip(place), gateways, COUNTER) else {
        return Err(Stop::NoMemory);
    };
    let first = match links.make(node_at(place, Port::First)) {
        Ok(link) => link,
        Err(stop) => return Err(stop_of(stop)),
    };
    match links.make(node_at(place, Port::Second)) {
        Ok(second) => Ok(LinkedNode {
            node,
            first,
            second,
        }),
        Err(stop) => {
            links.back(first);
            Err(stop_of(stop))
        }
    }
}

/// A writer of files that go to a shelf in memory.
fn writer(alloc: Global, address: u32) -> Writer<QuietShelf>
    ensures { is_broken result ≡ true }
{
    let Some(offset) = Offset16::of(0) else {
        unreachable!();
    };
    let limits = Limits {
        size: 1_048_576,
        count: 1_000,
        open_time: OPEN_TIME,
    };
    Writer::new(
        QuietShelf::new(alloc),
        Rules::none(alloc),
        limits,
        offset,
        address,
        1,
    )
}

/// The gateway in a place, with five new links of its address.
pub(crate) fn make_gateway<L: Links>(
    alloc: Global,
    place: u8,
    links: &mut L,
) -> Result<Gateway<QuietArea, QuietShelf, L::Link>, Stop>
    requires place { place < 4 }
    ensures made { IfOk result (HasMadeGateway L.Link.Link place (L.state links.old) (L.state links.new)) }
    ensures err { IfErr result (FailsToMake (L.state links.old) (L.state links.new)) }
{
    let address = gateway_at(place);
    let Ok(book) = open_book(alloc, place) else {
        return Err(Stop::NoMemory);
    };
    let (made, stop) = make_links(alloc, links, address);
    if let Some(stop) = stop {
        give_back(links, made, address);
        return Err(stop);
    }
    Ok(Gateway {
        book,
        writer: writer(alloc, address.ip),
        address,
        links: made,
    })
}
