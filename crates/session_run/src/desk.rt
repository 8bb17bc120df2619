// What a session has of its own while it serves.
ghost use Rattle.std.specs.Prelude.{◌≡◌};
ghost use Rattle.session_run.specs.Desks.{first_stop, stop_of};
ghost use Rattle.session_run.specs.Latest.{later_of};

use crate::stop::Stop;
use gw_base::Moment;
use job_inbox::InboxPass;
use net_link::Link;
use node_session::{JobBatch, Served, Worker};

/// What a session has of its own while it serves: itself, its pass to its inbox, its link, the latest moment of a job
/// that it took, why it stopped, if it did, and room for the jobs that it serves together.
#[derive(Drop)]
pub(crate) struct Desk<L: Link> {
    pub worker: Worker,
    pub pass: InboxPass,
    pub link: L,
    pub last: Option<Moment>,
    pub stop: Option<Stop>,
    pub batch: JobBatch,
}

/// Why a session stops that served a job, if it does.
pub(crate) fn stop_of(served: Served) -> Option<Stop>
    ensures { result ≡ stop_of served }
{
    match served {
        Served::Link => Some(Stop::Link),
        Served::NoMemory => Some(Stop::NoMemory),
        Served::Replied { .. } | Served::Dropped(_) | Served::Lost | Served::Over => None,
    }
}

/// Why a session stops that served jobs, if it does: the first cause.
pub(crate) fn first_stop(served: &[Served]) -> Option<Stop>
    ensures { result ≡ first_stop served.now }
{
    let mut stop = None;
    for answer in served {
        stop = stop.or(stop_of(*answer));
    }
    stop
}

/// The later of two moments, where there are any.
pub(crate) fn later(one: Option<Moment>, other: Option<Moment>) -> Option<Moment>
    ensures { result ≡ later_of one other }
{
    match (one, other) {
        (Some(a), Some(b)) => if a < b { Some(b) } else { Some(a) },
        (Some(a), None) => Some(a),
        (None, b) => b,
    }
}
