// The lines of a replay.
ghost use Rattle.std.specs.Prelude.{◌≡◌, ◌≢◌, ◌↔◌, ◌+◌, ◌-◌, ◌%◌, ◌++◌, [], ℕ, IfOk, OnErr, OnOk, None, Some, false, true, option_map};
ghost use Rattle.replay_world.specs.Does.{LineRan, Makes, RunsIf, end_of, is_at_gateway, is_at_node, is_on_device};
ghost use Rattle.replay_world.specs.Failing.{Fails, lacks_memory};
ghost use Rattle.replay_world.specs.Lines.{outcome_in, refusal_of_line, settle_steps};
ghost use Rattle.replay_world.specs.Report.{report_of};
ghost use Rattle.replay_world.specs.Stands.{Stands, has_failed};
ghost use Rattle.replay_world.specs.Value.{ReplayValue};

use crate::replay::Replay;
use area_disk::Outcome3;
use gw_base::{NoMemory, Octets};
use once_core::WorldKind;
use replay_gateway::{GatewayCall, failing, stopping};
use std::alloc::Global;
use world_script::{Line, Mode};

/// What became of a line.
#[derive(Clone, Copy, Debug, PartialEq, Eq)]
pub enum LineEnd {
    /// It ran.
    Ran,
    /// The world refuses it, and nothing happened.
    Refused(WorldKind),
    /// There was no memory. A part of the line may have run, and the replay has failed.
    NoMemory,
}

fn outcome_of(mode: Mode) -> Outcome3
    ensures { result ≡ outcome_in mode }
{
    match mode {
        Mode::Old => Outcome3::Old,
        Mode::New => Outcome3::New,
        Mode::Rot => Outcome3::Rot,
    }
}

impl Replay {
    /// Whether there was no memory for a line, a settling, a report or a summary, of which a part may have been done. A
    /// replay that has failed does nothing more: each of these calls leaves it as it is.
    pub fn has_failed(&self) -> bool
        ensures { result ≡ has_failed self.now }
    {
        self.has_failed
    }

    /// Runs a line of a script, and appends what it prints. A setting does nothing.
    pub fn run_line(&mut self, alloc: Global, line: &Line, out: &mut Octets) -> LineEnd
        // The line's steps were made, and what they tell was printed.
        ensures ran { (v : ReplayValue) → Stands v self.old →
            result ≡ LineEnd.Ran →
            LineRan v line.now out.old out.new self.new }
        // A line is refused exactly where the world refuses it.
        ensures refused { (v : ReplayValue) (kind : WorldKind) →
            Stands v self.old →
            (result ≡ LineEnd.Refused kind) ↔ (refusal_of_line v line.now ≡ Some kind) }
        // Nothing happens then.
        ensures kept { (kind : WorldKind) → result ≡ LineEnd.Refused kind →
            (self.new ≡ self.old) × (out.new ≡ out.old) }
        ensures fails { Fails (lacks_memory result) self.old out.old self.new out.new }
    {
        if self.has_failed {
            return LineEnd::NoMemory;
        }
        match self.refusal(line) {
            Some(kind) => LineEnd::Refused(kind),
            None => {
                let ran = self.run(alloc, line, out);
                self.ended(ran)
            }
        }
    }

    // The end of what ran, or had no memory and so failed.
    fn ended(&mut self, ran: Result<(), NoMemory>) -> LineEnd
        ensures end { result ≡ end_of ran }
        ensures ok { OnOk ran (self.new ≡ self.old) }
        ensures err { OnErr ran (has_failed self.new ≡ true) }
    {
        match ran {
            Ok(()) => LineEnd::Ran,
            Err(NoMemory) => {
                self.has_failed = true;
                LineEnd::NoMemory
            }
        }
    }

    /// Nothing is armed any more, and each gateway runs, closes its files and writes them. Where there is no memory, a
    /// part of this may have been done.
    pub fn settle(&mut self, alloc: Global, out: &mut Octets) -> LineEnd
        ensures ran { (v : ReplayValue) → Stands v self.old →
            result ≡ LineEnd.Ran → Makes v (settle_steps v)
            out.old out.new self.new }
        ensures ends { (kind : WorldKind) → result ≢ LineEnd.Refused kind }
        ensures fails { Fails (lacks_memory result) self.old out.old self.new out.new }
    {
        if self.has_failed {
            return LineEnd::NoMemory;
        }
        let ran = self.settle_all(alloc, out);
        self.ended(ran)
    }

    /// Appends the files and the counts of all gateways, and the counts of all nodes. Where there is no memory, a part
    /// may have been appended.
    pub fn report(&mut self, alloc: Global, out: &mut Octets) -> LineEnd
        ensures ran { (v : ReplayValue) → Stands v self.old →
            result ≡ LineEnd.Ran → Stands v self.new ×
            (out.new ≡ out.old ++ report_of v) }
        ensures ends { (kind : WorldKind) → result ≢ LineEnd.Refused kind }
        ensures fails { Fails (lacks_memory result) self.old out.old self.new out.new }
    {
        if self.has_failed {
            return LineEnd::NoMemory;
        }
        let ran = self.report_all(alloc, out);
        self.ended(ran)
    }

    /// Runs a line that the world allows.
    fn run(&mut self, alloc: Global, line: &Line, out: &mut Octets) -> Result<(), NoMemory>
        ensures { (v : ReplayValue) → Stands v self.old →
            refusal_of_line v line.now ≡ None → OnOk result
            (LineRan v line.now out.old out.new self.new) }
    {
        let ran = self.run_at_node(alloc, line, out)?;
        if ran {
            return Ok(());
        }
        self.run_elsewhere(alloc, line, out)
    }

    // The same of one that isn't at a node.
    fn run_elsewhere(
        &mut self,
        alloc: Global,
        line: &Line,
        out: &mut Octets,
    ) -> Result<(), NoMemory>
        ensures { (v : ReplayValue) → Stands v self.old →
            refusal_of_line v line.now ≡ None → is_at_node line.now ≡ false → OnOk result
            (LineRan v line.now out.old out.new self.new) }
    {
        let ran = self.run_at_gateway(alloc, line, out)?;
        if ran {
            return Ok(());
        }
        let ran = self.run_on_device(alloc, line)?;
        if ran {
            return Ok(());
        }
        self.run_of_all(alloc, line, out)
    }

    // Runs a line that is at a node, or a message that comes; whether it is one.
    fn run_at_node(
        &mut self,
        alloc: Global,
        line: &Line,
        out: &mut Octets,
    ) -> Result<bool, NoMemory>
        ensures { (v : ReplayValue) → Stands v self.old → refusal_of_line v line.now ≡ None →
            IfOk result (RunsIf v (is_at_node line.now) line.now out.old out.new self.old self.new) }
    {
        match line {
            Line::Submit {
                node,
                format,
                version,
                records,
            } => {
                let (node, records) = (place(*node), records.records());
                self.submit(alloc, node, *format, *version, records, out)?;
                Ok(true)
            }
            Line::Tick { node } => {
                self.tick(alloc, place(*node), out)?;
                Ok(true)
            }
            Line::Halt { node } => {
                self.halt(place(*node));
                Ok(true)
            }
            Line::Start { node } => {
                self.start(place(*node));
                Ok(true)
            }
            Line::Deliver { message } => {
                self.deliver(alloc, *message, out)?;
                Ok(true)
            }
            _ => Ok(false),
        }
    }

    // Runs a line that is at a gateway; whether it is one.
    fn run_at_gateway(
        &mut self,
        alloc: Global,
        line: &Line,
        out: &mut Octets,
    ) -> Result<bool, NoMemory>
        ensures { (v : ReplayValue) → Stands v self.old → refusal_of_line v line.now ≡ None →
            IfOk result (RunsIf v (is_at_gateway line.now) line.now out.old out.new self.old self.new) }
    {
        match line {
            Line::Mark { gateway } => {
                self.at_gateway(alloc, place(*gateway), GatewayCall::Mark, out)?;
                Ok(true)
            }
            Line::Close { gateway } => {
                self.at_gateway(alloc, place(*gateway), GatewayCall::Close, out)?;
                Ok(true)
            }
            Line::Commit { gateway } => {
                self.at_gateway(alloc, place(*gateway), GatewayCall::Commit, out)?;
                Ok(true)
            }
            Line::Write { gateway } => {
                self.write_line(alloc, place(*gateway), out)?;
                Ok(true)
            }
            Line::Redirect { gateway, cause, to } => {
                self.redirect(alloc, place(*gateway), *cause, other_place(*to), out)?;
                Ok(true)
            }
            _ => Ok(false),
        }
    }

    // Runs a line that is on a gateway's device, and prints nothing; whether it is one.
    fn run_on_device(&mut self, alloc: Global, line: &Line) -> Result<bool, NoMemory>
        ensures { (v : ReplayValue) → Stands v self.old → refusal_of_line v line.now ≡ None →
            IfOk result (RunsIf v (is_on_device line.now) line.now [] [] self.old self.new) }
    {
        match line {
            Line::Stop { gateway } => {
                self.stop(alloc, place(*gateway));
                Ok(true)
            }
            Line::Open { gateway } => {
                self.open(alloc, place(*gateway))?;
                Ok(true)
            }
            Line::Arm {
                gateway,
                call,
                mode,
            } => {
                let plan = stopping(alloc, from_one(*call), outcome_of(*mode));
                self.arm(place(*gateway), plan);
                Ok(true)
            }
            Line::Fail { gateway, call } => {
                let plan = failing(alloc, from_one(*call))?;
                self.arm(place(*gateway), plan);
                Ok(true)
            }
            Line::ArmShelf {
                gateway,
                call,
                mode,
            } => {
                let plan = stopping(alloc, from_one(*call), outcome_of(*mode));
                self.arm_shelf(place(*gateway), plan);
                Ok(true)
            }
            Line::FailShelf { gateway, call } => {
                let plan = failing(alloc, from_one(*call))?;
                self.arm_shelf(place(*gateway), plan);
                Ok(true)
            }
            _ => Ok(false),
        }
    }

    // Runs a line of another kind.
    fn run_of_all(&mut self, alloc: Global, line: &Line, out: &mut Octets) -> Result<(), NoMemory>
        ensures { (v : ReplayValue) → Stands v self.old → refusal_of_line v line.now ≡ None →
            is_at_node line.now ≡ false → is_at_gateway line.now ≡ false → is_on_device line.now ≡ false →
            OnOk result (LineRan v line.now out.old out.new self.new) }
    {
        match line {
            Line::At { moment } => {
                self.moment = *moment;
                Ok(())
            }
            Line::Flow => self.flow(alloc, out),
            Line::Mix { seed } => self.mix(alloc, *seed, out),
            Line::Settle => self.settle_all(alloc, out),
            Line::End => {
                self.settle_all(alloc, out)?;
                self.report_all(alloc, out)
            }
            _ => Ok(()),
        }
    }
}

/// The place of another gateway.
fn other_place(number: Option<u64>) -> Option<u8>
    ensures { result ≡ option_map (λ n. (n - 1) % 256) number }
{
    match number {
        None => None,
        Some(number) => Some(place(number)),
    }
}

/// The number of a call, from 1.
fn from_one(call: u64) -> u64
    ensures { result ≡ (call - 1) + 1 }
{
    call.saturating_sub(1) + 1
}

/// The place of a gateway or a node with this number, of which there are fewer than 256.
fn place(number: u64) -> u8
    ensures { result ≡ (number - 1) % 256 }
{
    (number.saturating_sub(1) % 256) as u8
}
