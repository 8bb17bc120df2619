//! What passes know, and the rule that a queue and its passes keep. No value of these types is made: they are what
//! contracts see of passes.

use crate::job::Job;
use crossbeam_queue::protocol::{Join, Lesson, Outcome, Protocol, Split};
use std::collections::LinkedList;
use std::marker::{Brand, PhantomData};

/// What one pass pushed and took, in its order.
pub struct Hand {
    pub put: LinkedList<Job>,
    pub taken: LinkedList<Job>,
}

/// How many passes their queue has, and what the passes did that were joined here.
pub struct Hands {
    pub made: u64,
    pub hands: LinkedList<Hand>,
}

/// The rule of an inbox.
pub struct InOrder;

impl Protocol<Job, Hands> for InOrder {
    ghost use Rattle.job_inbox.specs.Rule.{Rule, unbegun};

    ghost holds = { Rule };

    ghost first = { unbegun };
}

/// How many passes a queue is to have: what a step is told for the proof alone.
pub trait PassCount {
    ghost use Rattle.std.specs.Prelude.{ℕ};

    ghost passes: { ℕ };
}

impl PassCount for Brand {
    ghost passes = { 1 };
}

// The queue is begun: the new pass has all that are to be made.
pub(crate) struct Begin<J> {
    of: PhantomData<J>,
}

impl<J: PassCount> Split<Hands> for Begin<J> {
    ghost use Rattle.job_inbox.specs.Rule.{begun, bystander};

    ghost left = { λ v. bystander };

    ghost right = { λ v. begun J.passes };
}

// One pass becomes another's own.
pub(crate) struct First;

impl Split<Hands> for First {
    ghost use Rattle.job_inbox.specs.Rule.{first_alone, without_first};

    ghost left = { without_first };

    ghost right = { first_alone };
}

// One pass takes in what another did, in front of its own.
pub(crate) struct Gather;

impl Join<Hands> for Gather {
    ghost use Rattle.job_inbox.specs.Rule.{both, bystander};

    ghost both = { both };

    ghost spent = { bystander };
}

// The pass pushed a job, or learns what a full inbox shows.
pub(crate) struct Push;

impl Outcome<Job, Hands> for Push {
    ghost use Rattle.std.specs.Prelude.{◌≡◌};
    ghost use Rattle.job_inbox.specs.Rule.{with_first, with_put};

    ghost then = { λ v job w. w ≡ with_first (with_put job) v };
}

impl Lesson<Job, Hands> for Push {
    ghost use Rattle.job_inbox.specs.Hands.{Shows};
    ghost use Rattle.job_inbox.specs.Rule.{first_of};

    ghost fact = { λ v items. Shows v.made (first_of v.hands) items };
}

// The pass took a job, or learns what an empty inbox shows.
pub(crate) struct Take;

impl Outcome<Job, Hands> for Take {
    ghost use Rattle.std.specs.Prelude.{◌≡◌};
    ghost use Rattle.job_inbox.specs.Hands.{ShowsFirst};
    ghost use Rattle.job_inbox.specs.Rule.{first_of, with_first, with_taken};

    ghost then = { λ v job w. (w ≡ with_first (with_taken job) v) × ShowsFirst v.made (first_of v.hands) job };
}

impl Lesson<Job, Hands> for Take {
    ghost use Rattle.job_inbox.specs.Hands.{Shows};
    ghost use Rattle.job_inbox.specs.Rule.{first_of};

    ghost fact = { λ v items. Shows v.made (first_of v.hands) items };
}

// A pass that has all learns the whole.
pub(crate) struct Whole;

impl Lesson<Job, Hands> for Whole {
    ghost use Rattle.job_inbox.specs.Rule.{Ends};

    ghost fact = { Ends };
}
