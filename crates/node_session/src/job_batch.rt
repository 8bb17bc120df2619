// Jobs that a session serves together.
ghost use Rattle.std.specs.Prelude.{◌≤◌, length, vec_capacity};

use crate::served::Served;
use gateway_book::Outcome;
use gw_base::NoMemory;
use job_inbox::Job;
use std::alloc::Global;

/// Jobs that a session serves together, with room for so many, the outcomes of those whose datagrams were taken, which
/// are the first ones, and what became of each.
#[derive(Drop)]
pub struct JobBatch {
    pub(crate) jobs: Vec<Job>,
    pub(crate) outcomes: Vec<Outcome>,
    pub(crate) served: Vec<Served>,
    ghost room: { (vec_capacity jobs ≤ vec_capacity outcomes) × (vec_capacity jobs ≤ vec_capacity served) },
    ghost first: { length outcomes.items ≤ length jobs.items },
}

impl JobBatch {
    ghost use Rattle.std.specs.Prelude.{◌≡◌, ◌<◌, ℕ, [], ◌∷◌, ◌++◌, false, true, IfOk};
    ghost use Rattle.node_session.specs.Batches.{AreAllTaken, HasRoomFor, are_all_taken, is_full, jobs_of, outcomes_of, served_of};

    /// A batch without a job, and with room for so many.
    pub fn new(alloc: Global, room: usize) -> Result<JobBatch, NoMemory>
        requires some { 0 < room }
        ensures empty { IfOk result (λ batch.
            (jobs_of batch ≡ []) × (outcomes_of batch ≡ []) × (served_of batch ≡ [])) }
        ensures room { IfOk result (λ batch. HasRoomFor batch room) }
    {
        let Ok(jobs) = Vec::with_capacity(alloc, room) else {
            return Err(NoMemory);
        };
        let Ok(outcomes) = Vec::with_capacity(alloc, jobs.capacity()) else {
            return Err(NoMemory);
        };
        let Ok(served) = Vec::with_capacity(alloc, jobs.capacity()) else {
            return Err(NoMemory);
        };
        Ok(JobBatch {
            jobs,
            outcomes,
            served,
        })
    }

    /// Whether it has room for no more jobs.
    pub fn is_full(&self) -> bool
        ensures { result ≡ is_full self.now }
    {
        self.jobs.len() >= self.jobs.capacity()
    }

    /// Puts a job behind the others. It takes no memory.
    pub fn add(&mut self, job: Job)
        requires room { is_full self.old ≡ false }
        ensures jobs { jobs_of self.new ≡ jobs_of self.old ++ job ∷ [] }
        ensures same { (outcomes_of self.new ≡ outcomes_of self.old) × (served_of self.new ≡ served_of self.old) }
        ensures room { (n : ℕ) → HasRoomFor self.old n → HasRoomFor self.new n }
    {
        self.jobs.push_reserved(job);
    }

    /// Its jobs.
    pub fn jobs(&self) -> &[Job]
        ensures { result.now ≡ jobs_of self.now }
    {
        self.jobs.as_slice()
    }

    /// Whether the datagram of each job was taken.
    pub fn are_all_taken(&self) -> bool
        ensures value { result ≡ are_all_taken self.now }
        ensures taken { result ≡ true → AreAllTaken self.now }
    {
        self.outcomes.len() == self.jobs.len()
    }

    /// What became of each job, once they were served.
    pub fn served(&self) -> &[Served]
        ensures { result.now ≡ served_of self.now }
    {
        self.served.as_slice()
    }

    /// Drops all jobs, and what became of them. Its room stays.
    pub fn clear(&mut self)
        ensures none { (jobs_of self.new ≡ []) × (outcomes_of self.new ≡ []) × (served_of self.new ≡ []) }
        ensures room { (n : ℕ) → HasRoomFor self.old n → HasRoomFor self.new n }
    {
        self.outcomes.clear();
        self.jobs.clear();
        self.served.clear();
    }
}
