// Where gateways and nodes of a loop are.
ghost use Rattle.std.specs.Prelude.{◌≡◌, ◌<◌, ◌≤◌, IfOk, map};
ghost use Rattle.std.specs.List.{range_with_len};
ghost use Rattle.loop_run.specs.Addresses.{gateway_at, gateways_of, node_at, node_ip};

use gw_base::{Addr, NoMemory};
use node_core::Port;
use std::alloc::Global;

/// 127.0.0.11, the address of the first gateway, and the port that is registered for GTP'.
const FIRST_GATEWAY: u32 = 0x7F00_000B;

const GATEWAY_PORT: u16 = 3386;

/// 127.0.0.101, the address of the first node.
const FIRST_NODE: u32 = 0x7F00_0065;

/// The address of the gateway in a place, from 0.
pub(crate) fn gateway_at(place: u8) -> Addr
    ensures { result ≡ gateway_at place }
{
    Addr {
        ip: FIRST_GATEWAY + u32::from(place),
        port: GATEWAY_PORT,
    }
}

/// Those of so many gateways.
pub(crate) fn gateways_of(alloc: Global, count: u8) -> Result<Vec<Addr>, NoMemory>
    ensures { IfOk result (λ addresses. addresses.items ≡ gateways_of count) }
{
    let mut addresses = Vec::with_capacity(alloc, usize::from(count))?;
    for place in 0..count {
        addresses.push(gateway_at(place))?;
    }
    Ok(addresses)
}

/// The IPv4 address of the node in a place, from 0.
pub(crate) fn node_ip(place: u8) -> u32
    ensures { result ≡ node_ip place }
{
    FIRST_NODE + u32::from(place)
}

/// The address of its port.
pub(crate) fn node_at(place: u8, port: Port) -> Addr
    ensures { result ≡ node_at place port }
{
    Addr {
        ip: node_ip(place),
        port: match port {
            Port::First => 40_001,
            Port::Second => 40_002,
        },
    }
}
