//! Sessions: workers that answer datagrams on one book in turns, and send a reply once what it rests on is firm.
#![tactic(auto)]

mod actor;
mod asking;
mod committing;
mod dispatched;
mod dispatcher;
mod filing;
mod gate;
mod giving;
mod job_batch;
pub mod laws;
mod listing;
mod served;
mod serving;
mod settling;
mod taking;
mod together;
mod worker;

pub use actor::FileActor;
pub use dispatched::Dispatched;
pub use dispatcher::Dispatcher;
pub use filing::Filing;
pub use gate::{Gate, Go};
pub use job_batch::JobBatch;
pub use served::Served;
pub use settling::{SettleFault, settle};
pub use worker::Worker;
