// A gateway asks nodes to send elsewhere.
ghost use Rattle.std.specs.Prelude.{◌≡◌, IfOk, false, option_and_then};
ghost use Rattle.once_core.specs.Answers.{redirected};
ghost use Rattle.once_core.specs.Gateway.{Gateway};
ghost use Rattle.replay_gateway.specs.Called.{book_in};
ghost use Rattle.replay_gateway.specs.Redirecting.{KnowsNear, asking, path_in};
ghost use Rattle.replay_gateway.specs.Moves.{HasMoved};
ghost use Rattle.replay_gateway.specs.Setup.{Setup};
ghost use Rattle.replay_gateway.specs.Standing.{MachineStands};
ghost use Rattle.replay_gateway.specs.Machine.{Machine as MachineValue};

use crate::machine::Machine;
use crate::messages::kept;
use crate::site::Site;
use area_disk::MemoryArea;
use gateway_book::laws::a_book_is_within_the_limits;
use gateway_index::MOST_NODES;
use gw_base::{Addr, NoMemory, NodeId};
use once_core::{Message, node_id, port_at, redirection};
use std::alloc::Global;

impl Machine {
    /// Asks all nodes that it has a path to to send elsewhere, for this cause, and to the gateway in the place `to`
    /// where one is named; it is in `place` itself, and up. `NoMemory`: there was no memory for the messages.
    pub fn redirect(
        &mut self,
        alloc: Global,
        place: u8,
        cause: u8,
        to: Option<u8>,
    ) -> Result<Vec<Message>, NoMemory>
        ensures { (setup : Setup) (g : Gateway) (m : MachineValue) →
            MachineStands setup place g m self.old → g.is_down ≡ false → KnowsNear g →
            IfOk result (λ messages. HasMoved setup place
            (redirected place cause to g) m messages.items self.new) }
    {
        let messages = self.redirections(alloc, place, cause, to)?;
        self.redirects = self.redirects.wrapping_add(1);
        Ok(messages)
    }

    // The requests to all nodes that it has a path to.
    fn redirections(
        &self,
        alloc: Global,
        place: u8,
        cause: u8,
        to: Option<u8>,
    ) -> Result<Vec<Message>, NoMemory>
        ensures { (setup : Setup) (g : Gateway) (m : MachineValue) →
            MachineStands setup place g m self.now → g.is_down ≡ false → KnowsNear g →
            IfOk result (λ messages. messages.items ≡ (redirected place cause to g).sends) }
    {
        a_book_is_within_the_limits::<MemoryArea>();
        let number = self.redirects;
        let mut messages = Vec::new(alloc);
        for k in 0..MOST_NODES {
            let Some((path, start)) = self.path(k) else {
                return Ok(messages);
            };
            let message = redirection_to(alloc, place, number, cause, to, path, start)?;
            messages.push(message)?;
        }
        Ok(messages)
    }

    // The k-th of the paths that it knows, with the start of its node.
    fn path(&self, k: usize) -> Option<(Addr, u8)>
        ensures { result ≡ option_and_then (λ v. path_in v k) (book_in self.now.site) }
    {
        let Some(Site::Up(book)) = &self.site else {
            return None;
        };
        let path = book.path(k)?;
        Some((path, book.key(NodeId(path.ip), 0).start))
    }
}

/// The request to send elsewhere that goes to the node with this path and this start.
fn redirection_to(
    alloc: Global,
    place: u8,
    number: u16,
    cause: u8,
    to: Option<u8>,
    path: Addr,
    start: u8,
) -> Result<Message, NoMemory>
    ensures { IfOk result (λ message. message ≡ asking place cause number to (path, start)) }
{
    let node = (path.ip.saturating_sub(node_id(0).0) % 256) as u8;
    let octets = kept(alloc, &redirection(number, cause, to))?;
    Ok(Message {
        to_gateway: false,
        gateway: place,
        node,
        port: port_at(path),
        start,
        number: u64::from(number),
        named: None,
        octets,
    })
}
