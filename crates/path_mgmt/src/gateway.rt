ghost use Rattle.std.specs.Prelude.{◌≡◌};
ghost use Rattle.path_mgmt.specs.GatewayPath.{heard_at_gateway, opened_by};

use crate::event::{PathAnswer, PathEvent};

/// The gateway's end of a path. It keeps nothing: the node's present epoch is the caller's.
#[derive(Clone, Copy)]
pub struct GatewayPath;

impl GatewayPath {
    /// What the gateway makes of a message that comes from a node.
    ///
    /// `known` is the restart counter of the node's present epoch, where a Path opened it, and
    /// `own` the gateway's own restart counter. A Node Alive Request is answered by an Echo
    /// Request, and Node Alive only once the node has told its counter.
    pub fn hear(known: Option<u8>, event: PathEvent, own: u8) -> PathAnswer
        ensures { result ≡ heard_at_gateway known event own }
    {
        match event {
            PathEvent::EchoAsked { number } => PathAnswer::replying(PathEvent::EchoTold {
                number,
                counter: own,
            }),
            PathEvent::EchoTold { number, counter } => PathAnswer {
                reply: Some(PathEvent::AliveTold { number }),
                changed: opened_by(known, counter),
                alive: false,
            },
            PathEvent::AliveAsked { number } => {
                PathAnswer::replying(PathEvent::EchoAsked { number })
            }
            PathEvent::AliveTold { .. } => PathAnswer::silence(),
        }
    }
}

/// The counter, where it opens a new epoch of a node whose present one has the counter `known`.
fn opened_by(known: Option<u8>, counter: u8) -> Option<u8>
    ensures { result ≡ opened_by known counter }
{
    match known {
        Some(present) if present == counter => None,
        _ => Some(counter),
    }
}
