//! The settings of a script.
ghost use Rattle.std.specs.Prelude.{◌≡◌, ◌≤◌, ◌<◌, ◌+◌, ◌++◌, ℕ, IfOk, OnOk, IsSome, IsUtf8, length};
ghost use Rattle.jiff_core.specs.Calendar.{IsWithin};
ghost use Rattle.route_filter.specs.Rules.{most_rules, rule_of};
ghost use Rattle.replay_gateway.specs.Settings.{AreSet, AreSound, IsInRange, rules_in_line};
ghost use Rattle.replay_gateway.specs.Setup.{Setup, after_setting, default_limits, default_setup, rules_said, setup_of};

use cdr_file::Offset16;
use file_rotate::Limits;
use gw_base::{NoMemory, Octets};
use route_filter::{RuleFault, Rules};
use std::alloc::Global;
use std::str;
use world_script::{Line, Script};

/// How many gateways and nodes there are, how long each journal is, and what decides the files, but for the rules.
#[derive(Clone, Copy)]
pub struct Settings {
    /// How many gateways there are, at least 1.
    pub gateways: u8,
    /// How many nodes there are.
    pub nodes: u8,
    /// The length of a journal's area in octets, from 100 to 268,435,456.
    pub size: u64,
    /// When a file is closed.
    pub limits: Limits,
    /// How far a gateway's clock is ahead of UTC.
    pub offset: Offset16,
    /// The profile of the files, 1 or 2.
    pub profile: u8,
}

impl Settings {
    /// The settings among the lines of a script. A later one replaces an earlier one.
    pub fn of(script: &Script) -> Settings
        ensures set { AreSet (setup_of script.now.lines) result }
        ensures sound { AreSound result }
    {
        // The clause of `kind` says that its lines are read, so that settings are in their ranges.
        let _kind = script.kind();
        let mut settings = Settings::first();
        let mut k = 0;
        while let Some(line) = script.line(k) {
            settings.set(line);
            k += 1;
        }
        settings
    }

    /// What holds where nothing is set.
    pub fn first() -> Settings
        ensures set { AreSet default_setup result }
        ensures sound { AreSound result }
    {
        Settings {
            gateways: 1,
            nodes: 1,
            size: 16_777_216,
            limits: first_limits(),
            offset: offset(0),
            profile: 1,
        }
    }

    /// Sets what a line sets.
    fn set(&mut self, line: &Line)
        requires range { IsInRange line.now }
        requires sound { AreSound self.old }
        ensures set { (setup : Setup) → AreSet setup self.old → AreSet (after_setting setup line.now) self.new }
        ensures sound { AreSound self.new }
    {
        match line {
            Line::Reserve { length } => self.size = *length,
            Line::LimitRecords { count } => self.limits.count = *count,
            Line::LimitSize { size } => self.limits.size = *size,
            Line::LimitOpen { seconds } => self.limits.open_time = *seconds,
            Line::Offset { minutes } => self.offset = offset(*minutes),
            Line::Profile { profile } => self.profile = *profile,
            Line::Gateways { count } => self.gateways = *count,
            Line::Nodes { count } => self.nodes = *count,
            _ => {}
        }
    }
}

/// When a file is closed where nothing is set: at 1 MiB, at 1,000 records, and an hour after it was
/// opened.
fn first_limits() -> Limits
    ensures { result ≡ default_limits }
{
    Limits {
        size: 1_048_576,
        count: 1_000,
        open_time: 3_600,
    }
}

/// An offset of so many minutes, from -959 to 959.
fn offset(minutes: i16) -> Offset16
    requires { IsWithin 959 minutes }
    ensures { result ≡ minutes }
{
    let Some(offset) = Offset16::of(minutes) else {
        unreachable!();
    };
    offset
}

/// The rules among the lines of a script, in their order. `NoMemory`: there was no memory for them.
pub fn rules_of(alloc: Global, script: &Script) -> Result<Rules, NoMemory>
    ensures { IfOk result (λ rules. rules ≡ (setup_of script.now.lines).rules) }
{
    // The clause of `kind` says that its lines are read, so that each rule is one, and there are few enough.
    let _kind = script.kind();
    let mut rules = Rules::none(alloc);
    let mut k = 0;
    while let Some(line) = script.line(k) {
        add(&mut rules, line)?;
        k += 1;
    }
    Ok(rules)
}

/// Adds the rule that a line says, where it says one.
fn add(rules: &mut Rules, line: &Line) -> Result<(), NoMemory>
    requires range { IsInRange line.now }
    requires room { length rules.old + length (rules_in_line line.now) ≤ most_rules }
    ensures { OnOk result (rules.new ≡ rules.old ++ rules_in_line line.now) }
{
    match line {
        Line::Rule { text } => add_rule(rules, text),
        _ => Ok(()),
    }
}

/// Adds the rule that a text says behind those before it.
fn add_rule(rules: &mut Rules, text: &Octets) -> Result<(), NoMemory>
    requires rule { IsSome (rule_of text.now) }
    requires text { IsUtf8 text.now }
    requires room { length rules.old < most_rules }
    ensures { OnOk result (rules.new ≡ rules.old ++ rules_said text.now) }
{
    let Ok(line) = str::from_utf8(text.octets()) else {
        unreachable!();
    };
    match rules.add(line) {
        Ok(()) => Ok(()),
        Err(RuleFault::NoMemory) => Err(NoMemory),
        Err(_) => unreachable!(),
    }
}
