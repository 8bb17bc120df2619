// The lines that a replay prints.
ghost use Rattle.std.specs.Prelude.{◌≡◌, ◌++◌, IfOk, OnOk, string_bytes};
ghost use Rattle.replay_world.specs.Notices.{Notice, Sent, Took, Refused, Resolved, Finished, Expired, Down, Dropped, Faulted, ShelfFaulted, Stopped, gateway_name, node_name, notice_line};

use gtpp_message::Why;
use gw_base::{NoMemory, Octets};
use node_core::Port;
use once_core::Message;
use std::alloc::{AllocError, Global};

/// A message was sent.
pub(crate) fn print_sent(
    alloc: Global,
    out: &mut Octets,
    number: u64,
    message: &Message,
) -> Result<(), NoMemory>
    ensures { OnOk result (out.new ≡ out.old ++ notice_line (Sent number message.now)) }
{
    let octets = hex::encode_upper(alloc, message.octets.octets())?;
    let gateway = name_of_gateway(alloc, message.gateway)?;
    let node = name_of_node(alloc, message.node, message.port)?;
    let line = if message.to_gateway {
        format!(in alloc; "m {number} {node} {gateway} {octets}\n")?
    } else {
        format!(in alloc; "m {number} {gateway} {node} {octets}\n")?
    };
    out.append(line.as_bytes())
}

fn name_of_gateway(alloc: Global, gateway: u8) -> Result<String, AllocError>
    ensures { IfOk result (λ name. string_bytes name ≡ gateway_name gateway) }
{
    let number = u64::from(gateway) + 1;
    format!(in alloc; "g{number}")
}

fn name_of_node(alloc: Global, node: u8, port: Port) -> Result<String, AllocError>
    ensures { IfOk result (λ name. string_bytes name ≡ node_name node port) }
{
    let number = u64::from(node) + 1;
    match port {
        Port::First => format!(in alloc; "n{number}:1"),
        Port::Second => format!(in alloc; "n{number}:2"),
    }
}

/// A node took a packet.
pub(crate) fn print_took(
    alloc: Global,
    out: &mut Octets,
    node: u8,
    packet: u64,
) -> Result<(), NoMemory>
    ensures { OnOk result (out.new ≡ out.old ++ notice_line (Took node packet)) }
{
    let node = u64::from(node) + 1;
    let line = format!(in alloc; "packet {node}.{packet}\n")?;
    out.append(line.as_bytes())
}

/// A node refused a packet for this reason.
pub(crate) fn print_refused(alloc: Global, out: &mut Octets, reason: &str) -> Result<(), NoMemory>
    ensures { OnOk result (out.new ≡ out.old ++ notice_line (Refused reason.now)) }
{
    let line = format!(in alloc; "refused {reason}\n")?;
    out.append(line.as_bytes())
}

/// A packet became resolved.
pub(crate) fn print_resolved(
    alloc: Global,
    out: &mut Octets,
    node: u8,
    packet: u64,
) -> Result<(), NoMemory>
    ensures { OnOk result (out.new ≡ out.old ++ notice_line (Resolved node packet)) }
{
    let node = u64::from(node) + 1;
    let line = format!(in alloc; "resolved {node}.{packet}\n")?;
    out.append(line.as_bytes())
}

/// A packet became done.
pub(crate) fn print_done(
    alloc: Global,
    out: &mut Octets,
    node: u8,
    packet: u64,
) -> Result<(), NoMemory>
    ensures { OnOk result (out.new ≡ out.old ++ notice_line (Finished node packet)) }
{
    let node = u64::from(node) + 1;
    let line = format!(in alloc; "done {node}.{packet}\n")?;
    out.append(line.as_bytes())
}

/// A message is expired.
pub(crate) fn print_expired(alloc: Global, out: &mut Octets, number: u64) -> Result<(), NoMemory>
    ensures { OnOk result (out.new ≡ out.old ++ notice_line (Expired number)) }
{
    let line = format!(in alloc; "expired {number}\n")?;
    out.append(line.as_bytes())
}

/// The receiver of a message is stopped or halted.
pub(crate) fn print_down(alloc: Global, out: &mut Octets, number: u64) -> Result<(), NoMemory>
    ensures { OnOk result (out.new ≡ out.old ++ notice_line (Down number)) }
{
    let line = format!(in alloc; "down {number}\n")?;
    out.append(line.as_bytes())
}

/// A message was dropped.
pub(crate) fn print_drop(
    alloc: Global,
    out: &mut Octets,
    number: u64,
    why: Why,
) -> Result<(), NoMemory>
    ensures { OnOk result (out.new ≡ out.old ++ notice_line (Dropped number why)) }
{
    let name = why.name();
    let line = format!(in alloc; "drop {number} {name}\n")?;
    out.append(line.as_bytes())
}

/// The area of a gateway failed.
pub(crate) fn print_fault(alloc: Global, out: &mut Octets, gateway: u8) -> Result<(), NoMemory>
    ensures { OnOk result (out.new ≡ out.old ++ notice_line (Faulted gateway)) }
{
    let gateway = u64::from(gateway) + 1;
    let line = format!(in alloc; "fault {gateway}\n")?;
    out.append(line.as_bytes())
}

/// The shelf of a gateway failed.
pub(crate) fn print_shelf_fault(
    alloc: Global,
    out: &mut Octets,
    gateway: u8,
) -> Result<(), NoMemory>
    ensures { OnOk result (out.new ≡ out.old ++ notice_line (ShelfFaulted gateway)) }
{
    let gateway = u64::from(gateway) + 1;
    let line = format!(in alloc; "shelf fault {gateway}\n")?;
    out.append(line.as_bytes())
}

/// A gateway was stopped.
pub(crate) fn print_stopped(alloc: Global, out: &mut Octets, gateway: u8) -> Result<(), NoMemory>
    ensures { OnOk result (out.new ≡ out.old ++ notice_line (Stopped gateway)) }
{
    let gateway = u64::from(gateway) + 1;
    let line = format!(in alloc; "stopped {gateway}\n")?;
    out.append(line.as_bytes())
}
