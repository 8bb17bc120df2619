//! What each end of a path makes of a message. An event is `asked NUMBER`, `told NUMBER COUNTER`, `alive-asked NUMBER`
//! or `alive-told NUMBER`.
//!
//! - `gateway KNOWN EVENT`: the answer of a gateway with restart counter 5 that knows this counter of the node, or
//!   `none`.
//! - `node GATEWAY EVENT`: the answer of the node, whose counter is 6, to this gateway, and which of the gateways 0, 1
//!   and 255 are alive then.

use path_mgmt::{GatewayPath, NodePath, PathEvent};
use run_lines::{bad, first_word, number};
use std::io;

/// The restart counter of the gateway.
const COUNTER: u8 = 5;

pub(crate) fn event_of(words: &str) -> io::Result<PathEvent> {
    let (word, words) = first_word(words);
    let (wire, counter) = first_word(words);
    let wire = number(wire, 65_535)? as u16;
    match word {
        "asked" => Ok(PathEvent::EchoAsked { number: wire }),
        "told" => Ok(PathEvent::EchoTold {
            number: wire,
            counter: number(counter, 255)? as u8,
        }),
        "alive-asked" => Ok(PathEvent::AliveAsked { number: wire }),
        "alive-told" => Ok(PathEvent::AliveTold { number: wire }),
        _ => Err(bad()),
    }
}

/// The counter that is known, or none.
fn known_of(word: &str) -> io::Result<Option<u8>> {
    if word == "none" {
        return Ok(None);
    }
    let counter = number(word, 255)? as u8;
    Ok(Some(counter))
}

pub(crate) fn gateway(rt: &HostRuntime, words: &str) -> io::Result<()> {
    let (known, event) = first_word(words);
    let answer = GatewayPath::hear(known_of(known)?, event_of(event)?, COUNTER);
    print!(rt; "{answer:?}")
}

pub(crate) fn node(rt: &HostRuntime, path: &mut NodePath, words: &str) -> io::Result<()> {
    let (gateway, event) = first_word(words);
    let gateway = number(gateway, 255)? as u8;
    let answer = path.hear(gateway, event_of(event)?);
    let alive = [path.is_alive(0), path.is_alive(1), path.is_alive(255)];
    print!(rt; "{answer:?}, {alive:?}")
}
