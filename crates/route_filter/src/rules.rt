ghost use Rattle.std.specs.Prelude.{◌≡◌, ◌≤◌, ◌<◌, ℕ, [], All, length, find, slice_index, None, OnOk, OnErr, IfSome, IsSome};
ghost use Rattle.route_filter.specs.Starts.{group_count, group_of, may_match, start_after, start_of};
ghost use Rattle.route_filter.specs.Rules.{AddsRule, last_stream, matches, most_rules, rule_of, stream_of};

use crate::rule::Rule;
use gw_base::{NoMemory, Tag};
use std::alloc::Global;
use std::marker::Model;

/// Why a rule isn't added. The rules are as before.
#[derive(Clone, Copy, Debug)]
pub enum RuleFault {
    /// The line isn't of the form `rule TAG FORMAT STREAM`.
    Form,
    /// There are 256 rules already.
    TooMany,
    /// There was no memory for the rule.
    NoMemory,
}

impl From<NoMemory> for RuleFault {
    ghost use Rattle.std.specs.Prelude.{◌≡◌};
    ghost use Rattle.route_filter.specs.declared.rules.RuleFault.TheVariants as fault;

    ghost from_gives = { λ _ e. e ≡ fault.NoMemory };

    fn from(_: NoMemory) -> Self {
        RuleFault::NoMemory
    }
}

/// How many groups of tags there are.
const GROUPS: usize = 64;

/// At most 256 rules, in order, each for one of the streams.
#[derive(Drop)]
pub struct Rules {
    rules: Vec<Rule>,
    /// Before which rule none matches a tag, for each group of tags.
    starts: [u16; 64],
    alloc: Global,
}

impl Model for Rules {
    ghost use Rattle.std.specs.Prelude.{List};
    ghost use Rattle.route_filter.specs.Rules.{AreRules};
    ghost use Rattle.route_filter.specs.Starts.{AreStarts};
    ghost use Rattle.route_filter.specs.declared.rule.Rule.{Rule};

    ghost Value = { List Rule };

    ghost view = { λ r. r.rules.items };

    ghost invariant = { λ r. AreRules r.rules.items × AreStarts r.starts r.rules.items };
}

impl Rules {
    /// The most rules that there may be.
    pub const MOST: usize = 256;

    /// No rule, so that each record belongs to stream 0.
    pub fn none(alloc: Global) -> Rules
        ensures { result ≡ [] }
    {
        Rules {
            rules: Vec::new(alloc),
            starts: [0; 64],
            alloc,
        }
    }

    /// Adds the rule that a line says, `rule TAG FORMAT STREAM`, after the others. Words are separated by spaces. TAG is
    /// `*` or the octets of an identifier in hexadecimal, FORMAT is `*` or 0 to 255, of which all from 7 on are one, and
    /// STREAM is 0 to 15.
    pub fn add(&mut self, line: &str) -> Result<(), RuleFault>
        ensures added { OnOk result (AddsRule line.now self.old self.new) }
        ensures err { OnErr result (self.new ≡ self.old) }
        ensures form { result ≡ Err RuleFault.Form → rule_of line.now ≡ None }
        ensures too_many { result ≡ Err RuleFault.TooMany → IsSome (rule_of line.now) × (length self.old ≡ most_rules) }
    {
        let Some(rule) = Rule::read(self.alloc, line.as_bytes())? else {
            return Err(RuleFault::Form);
        };
        if self.rules.len() == Rules::MOST {
            return Err(RuleFault::TooMany);
        }
        let count = self.rules.len() as u16;
        match self.rules.push(rule) {
            Ok(()) => {
                pass(&mut self.starts, rule, count);
                Ok(())
            }
            Err(_) => Err(RuleFault::NoMemory),
        }
    }

    /// The stream of a record with this outer tag of a packet of this format: that of the first rule that matches it,
    /// and 0 where none does. It takes no memory.
    pub fn stream(&self, tag: Option<Tag>, format: u8) -> u8
        ensures stream { result ≡ stream_of self.now tag format }
        ensures within { result ≤ last_stream }
    {
        let (_, later) = self.rules.split_at(start_of(&self.starts, tag));
        match first_match(later, tag, format) {
            Some(rule) => rule.stream,
            None => 0,
        }
    }
}

/// The first rule that matches a record with this tag of a packet of this format.
fn first_match(rules: &[Rule], tag: Option<Tag>, format: u8) -> Option<Rule>
    requires { All (λ rule. rule.stream ≤ last_stream) rules.now }
    ensures first { result ≡ find (λ rule. matches rule tag format) rules.now }
    ensures stream { IfSome result (λ rule. rule.stream ≤ last_stream) }
{
    rules.iter().copied().find(|rule| rule.matches(tag, format))
}

/// Before which rule none matches a record with this tag.
fn start_of(starts: &[u16; 64], tag: Option<Tag>) -> usize
    ensures { result ≡ start_of starts.now tag }
{
    match tag {
        Some(tag) => starts[group_of(tag)] as usize,
        None => 0,
    }
}

/// Moves the starts of groups past a rule behind so many others, where they stood at it and it may match no tag of
/// theirs.
fn pass(starts: &mut [u16; 64], rule: Rule, count: u16)
    requires { count < most_rules }
    ensures groups { length starts.new ≡ group_count }
    ensures moved { (g : ℕ) → g < group_count →
        slice_index starts.new g ≡ start_after g rule count (slice_index starts.old g) }
{
    for group in 0..GROUPS {
        starts[group] = start_after(group, rule, count, starts[group]);
    }
}

/// The start of a group, once a rule stands behind so many others.
fn start_after(group: usize, rule: Rule, count: u16, start: u16) -> u16
    requires { count < most_rules }
    ensures { result ≡ start_after group rule count start }
{
    if start == count && !may_match(group, rule) {
        count + 1
    } else {
        start
    }
}

/// Whether a rule may match a record with a tag of this group.
fn may_match(group: usize, rule: Rule) -> bool
    ensures { result ≡ may_match group rule }
{
    match rule.tag {
        Some(tag) => group_of(tag) == group,
        None => true,
    }
}

/// The group of a tag, by the constructed bit and the last five bits of the number.
fn group_of(tag: Tag) -> usize
    ensures value { result ≡ group_of tag }
    ensures within { result < group_count }
{
    let number = (tag.number % 32) as usize;
    if tag.constructed { 32 + number } else { number }
}
