// Where gateways and nodes are.
ghost use Rattle.std.specs.Prelude.{◌≡◌, ◌<◌, ◌%◌, IfOk, length};
ghost use Rattle.once_core.specs.Addresses.{addresses_from, gateway_address, gateway_at, node_address, node_at, node_id, port_at};

use gw_base::{Addr, NoMemory, NodeId};
use node_core::Port;
use std::alloc::Global;

const FIRST_GATEWAY: u32 = 0x0A00_0001;

const FIRST_NODE: u32 = 0x0A00_0101;

const GATEWAY_PORT: u16 = 3386;

const FIRST_PORT: u16 = 40_001;

const SECOND_PORT: u16 = 40_002;

/// The address of the gateway in this place, from 0 on: 10.0.0.1 is the first one's.
pub fn gateway_address(gateway: u8) -> Addr
    ensures { result ≡ gateway_address gateway }
{
    Addr {
        ip: FIRST_GATEWAY + u32::from(gateway),
        port: GATEWAY_PORT,
    }
}

/// The addresses of so many gateways.
#[tactic(auto, using(crate::proofs::NodeTurnLemmas::addresses_more, crate::proofs::NodeTurnLemmas::addresses_none, crate::proofs::NodeTurnLemmas::addresses_length))]
pub fn addresses_of(alloc: Global, gateways: u8) -> Result<Vec<Addr>, NoMemory>
    ensures addresses { IfOk result (λ addresses. addresses.items ≡ addresses_from 0 gateways) }
    ensures count { IfOk result (λ addresses. length addresses.items ≡ gateways) }
{
    let mut addresses = Vec::new(alloc);
    for gateway in 0..gateways {
        addresses.push(gateway_address(gateway))?;
    }
    Ok(addresses)
}

/// The gateway with this address.
pub(crate) fn gateway_at(address: Addr) -> u8
    ensures { result ≡ gateway_at address % 256 }
{
    (address.ip.saturating_sub(FIRST_GATEWAY) % 256) as u8
}

/// The address of the node in this place, from 0 on: 10.0.1.1 is the first one's.
pub fn node_id(node: u8) -> NodeId
    ensures { result ≡ node_id node }
{
    NodeId(FIRST_NODE + u32::from(node))
}

/// The same, with a port of the node.
pub fn node_address(node: u8, port: Port) -> Addr
    ensures address { result ≡ node_address node port }
    ensures near { node_at result < 256 }
{
    Addr {
        ip: node_id(node).0,
        port: port_number(port),
    }
}

fn port_number(port: Port) -> u16
    ensures { result ≡ (node_address 0 port).port }
{
    match port {
        Port::First => FIRST_PORT,
        Port::Second => SECOND_PORT,
    }
}

/// The node with this address.
pub(crate) fn node_at(address: Addr) -> u8
    ensures { result ≡ node_at address % 256 }
{
    (address.ip.saturating_sub(FIRST_NODE) % 256) as u8
}

/// The port of a node that has this address.
pub fn port_at(address: Addr) -> Port
    ensures { result ≡ port_at address }
{
    if address.port == SECOND_PORT {
        Port::Second
    } else {
        Port::First
    }
}
