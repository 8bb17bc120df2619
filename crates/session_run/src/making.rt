// What is made before sessions serve: their inboxes, and who dispatches to them.
ghost use Rattle.std.specs.Prelude.{IfOk};
ghost use Rattle.session_run.specs.Making.{IsFreshHall, IsFreshPlace};

use gw_base::NoMemory;
use job_inbox::{Inbox, InboxPass};
use node_session::{Dispatcher, JobBatch};
use std::alloc::Global;

/// How many jobs an inbox has room for.
const CAPACITY: usize = 1024;

/// How many jobs a session serves together at most.
const TOGETHER: usize = 256;

/// The passes of four who pop. A pass has no size, and the kit covers no arrays of such values.
pub(crate) type Pops = (InboxPass, InboxPass, InboxPass, InboxPass);

/// Room for the jobs that each of four serves together.
pub(crate) type Batches = (JobBatch, JobBatch, JobBatch, JobBatch);

/// An inbox, with its pass for who pushes, its pass for who pops, and the list that these came in.
#[derive(Drop)]
pub(crate) struct Place {
    pub inbox: Inbox,
    pub push: InboxPass,
    pub pop: InboxPass,
    pub list: Vec<InboxPass>,
}

/// The inboxes of four sessions, who dispatches to them, the passes of those who pop, room for the jobs that each
/// serves together, and the lists that passes came in.
#[derive(Drop)]
pub(crate) struct Hall {
    pub inboxes: [Inbox; 4],
    pub dispatcher: Dispatcher,
    pub pops: Pops,
    pub batches: Batches,
    pub lists: [Vec<InboxPass>; 4],
}

// An empty inbox.
fn make_place(alloc: Global) -> Result<Place, NoMemory>
    ensures { IfOk result IsFreshPlace }
{
    let (inbox, mut list) = Inbox::new(alloc, CAPACITY, 2)?;
    let Some(pop) = list.pop() else {
        unreachable!();
    };
    let Some(push) = list.pop() else {
        unreachable!();
    };
    Ok(Place {
        inbox,
        push,
        pop,
        list,
    })
}

// Four batches without a job.
fn make_batches(alloc: Global) -> Result<Batches, NoMemory> {
    let a = JobBatch::new(alloc, TOGETHER)?;
    let b = JobBatch::new(alloc, TOGETHER)?;
    let c = JobBatch::new(alloc, TOGETHER)?;
    let d = JobBatch::new(alloc, TOGETHER)?;
    Ok((a, b, c, d))
}

/// Four empty inboxes, who dispatches to them, and four batches.
pub(crate) fn make_hall(alloc: Global) -> Result<Hall, NoMemory>
    ensures { IfOk result IsFreshHall }
{
    let batches = make_batches(alloc)?;
    let Place {
        inbox: a,
        push: a_push,
        pop: a_pop,
        list: a_list,
    } = make_place(alloc)?;
    let Place {
        inbox: b,
        push: b_push,
        pop: b_pop,
        list: b_list,
    } = make_place(alloc)?;
    let Place {
        inbox: c,
        push: c_push,
        pop: c_pop,
        list: c_list,
    } = make_place(alloc)?;
    let Place {
        inbox: d,
        push: d_push,
        pop: d_pop,
        list: d_list,
    } = make_place(alloc)?;
    let pushes = vec![in alloc; a_push, b_push, c_push, d_push]?;
    let Ok(dispatcher) = Dispatcher::new(alloc, pushes) else {
        return Err(NoMemory);
    };
    Ok(Hall {
        inboxes: [a, b, c, d],
        dispatcher,
        pops: (a_pop, b_pop, c_pop, d_pop),
        batches,
        lists: [a_list, b_list, c_list, d_list],
    })
}
