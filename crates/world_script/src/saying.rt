ghost use Rattle.std.specs.Prelude.{◌≡◌, ◌≤◌, ℕ, map, IfOk};
ghost use Rattle.world_script.specs.Outcome.{Says};
ghost use Rattle.world_script.specs.declared.line.Line.TheVariants as line;
ghost use Rattle.world_script.specs.Saying.{at_said, datagram_said, in_said, limit_on, limit_said, offset_said, one_between, one_gateway, one_number, packet_said, redirect_on, redirect_said, redirect_to, rule_said, ruled, said_as, said_by, submit_said, word_said};

use crate::arming::{arm, arm_shelf, fail, fail_shelf};
use crate::fault::{InputKind, LineFault};
use crate::keyword::Keyword;
use crate::kind::ScriptKind;
use crate::line::Line;
use crate::values::{address, any_number, number_between, offset, records, version};
use gw_base::{Moment, Octets};
use route_filter::{Rule, Rules, number, octets};
use std::alloc::Global;

/// What a line of this form says, by its words after the first, where so many rules stand before it.
pub fn said_by(
    alloc: Global,
    kind: ScriptKind,
    form: Keyword,
    rules: usize,
    content: &[u8],
    words: &[&[u8]],
) -> Result<Line, LineFault>
    ensures { Says (said_by kind form rules content.now (map (λ word. word.now) words.now)) result }
{
    Ok(match form {
        Keyword::In => return datagram(alloc, words),
        Keyword::Rule => return rule(alloc, rules, content, words),
        Keyword::Submit => return submit(alloc, words),
        Keyword::At => at(words)?,
        Keyword::Mark => Line::Mark {
            gateway: one_gateway(kind, words)?,
        },
        Keyword::Close => Line::Close {
            gateway: one_gateway(kind, words)?,
        },
        Keyword::End => word(Line::End, words)?,
        Keyword::Reserve => Line::Reserve {
            length: one_between(100, 268_435_456, words)?,
        },
        Keyword::Limit => limit(words)?,
        Keyword::Offset => offset_line(words)?,
        Keyword::Profile => profile(words)?,
        Keyword::Gateways => gateways(words)?,
        Keyword::Nodes => nodes(words)?,
        Keyword::Tick => Line::Tick {
            node: one_number(words)?,
        },
        Keyword::Halt => Line::Halt {
            node: one_number(words)?,
        },
        Keyword::Start => Line::Start {
            node: one_number(words)?,
        },
        Keyword::Deliver => Line::Deliver {
            message: one_number(words)?,
        },
        Keyword::Flow => word(Line::Flow, words)?,
        Keyword::Mix => Line::Mix {
            seed: one_number(words)?,
        },
        Keyword::Commit => Line::Commit {
            gateway: one_number(words)?,
        },
        Keyword::Write => Line::Write {
            gateway: one_number(words)?,
        },
        Keyword::Redirect => redirect(words)?,
        Keyword::Stop => Line::Stop {
            gateway: one_number(words)?,
        },
        Keyword::Open => Line::Open {
            gateway: one_number(words)?,
        },
        Keyword::Arm => arm(words)?,
        Keyword::Fail => fail(words)?,
        Keyword::ArmShelf => arm_shelf(words)?,
        Keyword::FailShelf => fail_shelf(words)?,
        Keyword::Settle => word(Line::Settle, words)?,
    })
}

/// A line that is one word.
fn word(said: Line, words: &[&[u8]]) -> Result<Line, InputKind>
    ensures { result ≡ word_said said (map (λ word. word.now) words.now) }
{
    if words.is_empty() {
        Ok(said)
    } else {
        Err(InputKind::Arity)
    }
}

/// One number: a gateway, a node, a message or a seed.
fn one_number(words: &[&[u8]]) -> Result<u64, InputKind>
    ensures { result ≡ one_number (map (λ word. word.now) words.now) }
{
    let &[word] = words else {
        return Err(InputKind::Arity);
    };
    any_number(word).ok_or(InputKind::Number)
}

/// One number from `least` to `most`.
fn one_between(least: u64, most: u64, words: &[&[u8]]) -> Result<u64, InputKind>
    ensures value { result ≡ one_between least most (map (λ word. word.now) words.now) }
    ensures within { IfOk result (λ number. number ≤ most) }
{
    let &[word] = words else {
        return Err(InputKind::Arity);
    };
    match number_between(least, most, word) {
        Some(number) => Ok(number),
        None => Err(InputKind::Number),
    }
}

/// In a replay one number says which gateway; elsewhere there is one, which isn't named.
fn one_gateway(kind: ScriptKind, words: &[&[u8]]) -> Result<u64, InputKind>
    ensures { result ≡ one_gateway kind (map (λ word. word.now) words.now) }
{
    if kind == ScriptKind::Replay {
        return one_number(words);
    }
    if words.is_empty() {
        Ok(1)
    } else {
        Err(InputKind::Arity)
    }
}

/// `at N`
fn at(words: &[&[u8]]) -> Result<Line, InputKind>
    ensures { result ≡ at_said (map (λ word. word.now) words.now) }
{
    let &[seconds] = words else {
        return Err(InputKind::Arity);
    };
    let Some(seconds) = number(seconds, Moment::LAST_SECOND) else {
        return Err(InputKind::Number);
    };
    match Moment::of(seconds) {
        Some(moment) => Ok(Line::At { moment }),
        None => Err(InputKind::Number),
    }
}

/// `in IP:PORT HEX..`
fn datagram(alloc: Global, words: &[&[u8]]) -> Result<Line, LineFault>
    ensures { Says (in_said (map (λ word. word.now) words.now)) result }
{
    let Some((from, words)) = words.split_first() else {
        return Err(LineFault::Refused(InputKind::Arity));
    };
    if words.is_empty() {
        return Err(LineFault::Refused(InputKind::Arity));
    }
    datagram_from(alloc, from, words)
}

/// A datagram that comes from this address and has these octets.
fn datagram_from(alloc: Global, from: &[u8], words: &[&[u8]]) -> Result<Line, LineFault>
    ensures { Says (datagram_said from.now (map (λ word. word.now) words.now)) result }
{
    let Some(from) = address(from) else {
        return Err(LineFault::Refused(InputKind::Number));
    };
    let Some(octets) = octets(alloc, words)? else {
        return Err(LineFault::Refused(InputKind::Hex));
    };
    let octets = Octets::from_vec(octets);
    Ok(Line::Datagram { from, octets })
}

/// `submit N FORMAT VERSION HEX..`
#[tactic(auto, using(crate::proofs::ArityLemmas::submit_few))]
fn submit(alloc: Global, words: &[&[u8]]) -> Result<Line, LineFault>
    ensures { Says (submit_said (map (λ word. word.now) words.now)) result }
{
    if words.len() < 4 {
        return Err(LineFault::Refused(InputKind::Arity));
    }
    let (_, rest) = words.split_at(3);
    packet(alloc, words[0], words[1], words[2], rest)
}

/// A packet that a node submits, by the words that say it.
fn packet(
    alloc: Global,
    node: &[u8],
    format: &[u8],
    form_version: &[u8],
    words: &[&[u8]],
) -> Result<Line, LineFault>
    ensures { Says (packet_said node.now format.now form_version.now (map (λ word. word.now) words.now)) result }
{
    let Some(node) = any_number(node) else {
        return Err(LineFault::Refused(InputKind::Number));
    };
    let Some(format) = number(format, 255) else {
        return Err(LineFault::Refused(InputKind::Number));
    };
    let Some(version) = version(alloc, form_version)? else {
        return Err(LineFault::Refused(InputKind::Hex));
    };
    let Some(records) = records(alloc, words)? else {
        return Err(LineFault::Refused(InputKind::Hex));
    };
    Ok(Line::Submit {
        node,
        format: format as u8,
        version,
        records,
    })
}

/// `limit records N`, `limit size N`, `limit open N`
#[tactic(auto, using(crate::proofs::ArityLemmas::limit_other, crate::proofs::ArityLemmas::limit_two))]
fn limit(words: &[&[u8]]) -> Result<Line, InputKind>
    ensures { result ≡ limit_said (map (λ word. word.now) words.now) }
{
    if words.len() != 2 {
        return Err(InputKind::Arity);
    }
    limit_on(words[0], words[1])
}

fn limit_on(what: &[u8], number: &[u8]) -> Result<Line, InputKind>
    ensures { result ≡ limit_on what.now number.now }
{
    if what == b"records".as_slice() {
        return match number_between(1, 1_000_000, number) {
            Some(count) => Ok(Line::LimitRecords {
                count: count as u32,
            }),
            None => Err(InputKind::Number),
        };
    }
    if what == b"size".as_slice() {
        return match number_between(1, 1_000_000_000, number) {
            Some(size) => Ok(Line::LimitSize { size: size as u32 }),
            None => Err(InputKind::Number),
        };
    }
    if what == b"open".as_slice() {
        return match number_between(1, 1_000_000, number) {
            Some(seconds) => Ok(Line::LimitOpen { seconds }),
            None => Err(InputKind::Number),
        };
    }
    Err(InputKind::Number)
}

/// `offset +HH:MM` or `offset -HH:MM`
fn offset_line(words: &[&[u8]]) -> Result<Line, InputKind>
    ensures { result ≡ offset_said (map (λ word. word.now) words.now) }
{
    let &[word] = words else {
        return Err(InputKind::Arity);
    };
    match offset(word) {
        Some(minutes) => Ok(Line::Offset { minutes }),
        None => Err(InputKind::Number),
    }
}

/// `profile N`
fn profile(words: &[&[u8]]) -> Result<Line, InputKind>
    ensures { result ≡ said_as line.Profile (one_between 1 2 (map (λ word. word.now) words.now)) }
{
    let profile = one_between(1, 2, words)? as u8;
    Ok(Line::Profile { profile })
}

/// `gateways N`
fn gateways(words: &[&[u8]]) -> Result<Line, InputKind>
    ensures { result ≡ said_as line.Gateways (one_between 1 8 (map (λ word. word.now) words.now)) }
{
    let count = one_between(1, 8, words)? as u8;
    Ok(Line::Gateways { count })
}

/// `nodes N`
fn nodes(words: &[&[u8]]) -> Result<Line, InputKind>
    ensures { result ≡ said_as line.Nodes (one_between 1 16 (map (λ word. word.now) words.now)) }
{
    let count = one_between(1, 16, words)? as u8;
    Ok(Line::Nodes { count })
}

/// `redirect G CAUSE`, `redirect G CAUSE H`
#[tactic(auto, using(crate::proofs::ArityLemmas::redirect_other, crate::proofs::ArityLemmas::redirect_two, crate::proofs::ArityLemmas::redirect_three))]
fn redirect(words: &[&[u8]]) -> Result<Line, InputKind>
    ensures { result ≡ redirect_said (map (λ word. word.now) words.now) }
{
    if words.len() == 2 {
        return redirect_on(words[0], words[1]);
    }
    if words.len() == 3 {
        return redirect_to(words[0], words[1], words[2]);
    }
    Err(InputKind::Arity)
}

fn redirect_on(gateway: &[u8], cause: &[u8]) -> Result<Line, InputKind>
    ensures { result ≡ redirect_on gateway.now cause.now }
{
    let gateway = any_number(gateway).ok_or(InputKind::Number)?;
    match number_between(59, 63, cause) {
        Some(cause) => Ok(Line::Redirect {
            gateway,
            cause: cause as u8,
            to: None,
        }),
        None => Err(InputKind::Number),
    }
}

fn redirect_to(gateway: &[u8], cause: &[u8], to: &[u8]) -> Result<Line, InputKind>
    ensures { result ≡ redirect_to gateway.now cause.now to.now }
{
    let gateway = any_number(gateway).ok_or(InputKind::Number)?;
    let cause = number_between(59, 63, cause).ok_or(InputKind::Number)?;
    match any_number(to) {
        Some(to) => Ok(Line::Redirect {
            gateway,
            cause: cause as u8,
            to: Some(to),
        }),
        None => Err(InputKind::Number),
    }
}

/// `rule TAG FORMAT STREAM`
#[tactic(auto, using(crate::proofs::ArityLemmas::rule_other, crate::proofs::ArityLemmas::rule_three))]
fn rule(alloc: Global, rules: usize, content: &[u8], words: &[&[u8]]) -> Result<Line, LineFault>
    ensures { Says (rule_said rules content.now (map (λ word. word.now) words.now)) result }
{
    if words.len() != 3 {
        return Err(LineFault::Refused(InputKind::Arity));
    }
    ruled(alloc, rules, content)
}

/// A line that is a rule, where there are not as many before it as there may be.
fn ruled(alloc: Global, rules: usize, content: &[u8]) -> Result<Line, LineFault>
    ensures { Says (ruled rules content.now) result }
{
    let rule = Rule::read(alloc, content)?;
    if rules < Rules::MOST && rule.is_some() {
        let text = Octets::of(alloc, content)?;
        Ok(Line::Rule { text })
    } else {
        Err(LineFault::Refused(InputKind::Rule))
    }
}
