// The packets that a node sends of itself.
ghost use Rattle.std.specs.Prelude.{◌≡◌, IfOk, None};
ghost use Rattle.node_core.specs.Drafts.{addition_fault_of};
ghost use Rattle.world_script.specs.Sample.{record_octets};
ghost use Rattle.node_run.specs.Packets.{packet_form};

use gw_base::NoMemory;
use node_core::{Draft, DraftFault};
use std::alloc::Global;

/// The data record format and the format version of each packet.
const FORMAT: u8 = 1;

const VERSION: u16 = 0x0600;

/// The packet with this number, counted from 0: of format 1 and version 0600, with one record to five, each of which
/// has the packet's number in four octets and its own.
pub fn packet(alloc: Global, number: u32) -> Result<Draft, NoMemory>
    ensures { IfOk result (λ draft. draft ≡ packet_form number) }
{
    let mut draft = Draft::new(alloc, FORMAT, VERSION);
    for n in 0..1 + (number % 5) as u8 {
        if let Err(fault) = draft.add(&record(number, n)) {
            return Err(no_memory(fault));
        }
    }
    Ok(draft)
}

/// What a fault is that nothing but want of memory can be.
fn no_memory(fault: DraftFault) -> NoMemory
    requires { addition_fault_of fault ≡ None }
{
    match fault {
        DraftFault::NoMemory => NoMemory,
        DraftFault::Count => unreachable!(),
        DraftFault::TooBig => unreachable!(),
        DraftFault::Ber(_) => unreachable!(),
    }
}

/// A record of a packet: one BER value.
fn record(packet: u32, n: u8) -> [u8; 7]
    ensures { result ≡ record_octets packet n }
{
    [
        0x85,
        5,
        (packet / 16_777_216) as u8,
        (packet / 65_536 % 256) as u8,
        (packet / 256 % 256) as u8,
        (packet % 256) as u8,
        n,
    ]
}
