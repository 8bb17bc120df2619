//! The text of a script.

ghost use Rattle.std.specs.Prelude.{◌≡◌, ◌<◌, ◌++◌, ◌∷◌, [], map, codes, IfOk, OnOk, Ok};
ghost use Rattle.std.specs.Fmt.{decimal};
ghost use Rattle.hex.specs.Hex.{encode_upper};
ghost use Rattle.world_script.specs.Script.{script_in};
ghost use Rattle.world_script.specs.Printing.{address_text, armed_text, fitted, gateway_text, hours_text, line_text, mode_text, offset_text, one_number, pair_text, printed, redirect_text, two_digits_text, two_numbers, version_text, words_text};

use crate::kind::ScriptKind;
use crate::line::Line;
use crate::mode::Mode;
use crate::script::Script;
use gw_base::text::{append_number, append_word};
use gw_base::{Addr, NoMemory, Octets};
use std::alloc::Global;

/// The most octets that the text of a script may have.
const MOST_TEXT: usize = 16_777_216;

/// The text of a script, a line feed after each line, which reads as this script. Comments are left
/// out, and so is the last line feed where the text would be too long by it.
#[tactic(auto, using(crate::proofs::ScriptLemmas::lines_more))]
pub fn print(alloc: Global, script: &Script) -> Result<Octets, NoMemory>
    ensures text { IfOk result (λ text. text ≡ printed script.now.kind script.now.lines) }
    ensures read_back { IfOk result (λ text. script_in script.now.kind text ≡ Ok script.now.lines) }
{
    let kind = script.kind();
    let mut text = Vec::new(alloc);
    for line in script.lines() {
        append_ended(alloc, &mut text, kind, line)?;
    }
    fit(&mut text);
    Ok(Octets::from_vec(text))
}

/// Leaves out the last line feed where a text would be too long by it.
fn fit(text: &mut Vec<u8>)
    ensures { text.new.items ≡ fitted text.old.items }
{
    let length = text.len();
    if length > MOST_TEXT {
        text.truncate(length - 1);
    }
}

/// Appends a line and its line feed.
fn append_ended(
    alloc: Global,
    text: &mut Vec<u8>,
    kind: ScriptKind,
    line: &Line,
) -> Result<(), NoMemory>
    ensures { OnOk result (text.new.items ≡ text.old.items ++ line_text kind line.now ++ 10 ∷ []) }
{
    append_line(alloc, text, kind, line)?;
    text.push(b'\n')?;
    Ok(())
}

/// Appends what a line says, without a line feed.
fn append_line(
    alloc: Global,
    text: &mut Vec<u8>,
    kind: ScriptKind,
    line: &Line,
) -> Result<(), NoMemory>
    ensures { OnOk result (text.new.items ≡ text.old.items ++ line_text kind line.now) }
{
    match line {
        Line::Blank => Ok(()),
        Line::Reserve { length } => append_one(alloc, text, b"reserve", *length),
        Line::LimitRecords { count } => append_one(
            alloc,
            text,
            b"limit records",
            u64::from(*count),
        ),
        Line::LimitSize { size } => append_one(alloc, text, b"limit size", u64::from(*size)),
        Line::LimitOpen { seconds } => append_one(alloc, text, b"limit open", *seconds),
        Line::Offset { minutes } => append_offset(text, *minutes),
        Line::Profile { profile } => append_one(alloc, text, b"profile", u64::from(*profile)),
        Line::Rule { text: rule } => append(text, rule.octets()),
        Line::Gateways { count } => append_one(alloc, text, b"gateways", u64::from(*count)),
        Line::Nodes { count } => append_one(alloc, text, b"nodes", u64::from(*count)),
        Line::End => append(text, b"end"),
        Line::At { moment } => append_one(alloc, text, b"at", moment.seconds()),
        Line::Datagram { from, octets } => append_datagram(alloc, text, *from, octets.octets()),
        Line::Mark { gateway } => append_gateway(alloc, text, kind, b"mark", *gateway),
        Line::Close { gateway } => append_gateway(alloc, text, kind, b"close", *gateway),
        Line::Submit {
            node,
            format,
            version,
            records,
        } => append_packet(alloc, text, *node, *format, *version, records.records()),
        Line::Tick { node } => append_one(alloc, text, b"tick", *node),
        Line::Halt { node } => append_one(alloc, text, b"halt", *node),
        Line::Start { node } => append_one(alloc, text, b"start", *node),
        Line::Deliver { message } => append_one(alloc, text, b"deliver", *message),
        Line::Flow => append(text, b"flow"),
        Line::Mix { seed } => append_one(alloc, text, b"mix", *seed),
        Line::Commit { gateway } => append_one(alloc, text, b"commit", *gateway),
        Line::Write { gateway } => append_one(alloc, text, b"write", *gateway),
        Line::Redirect { gateway, cause, to } => append_redirect(
            alloc, text, *gateway, *cause, *to,
        ),
        Line::Stop { gateway } => append_one(alloc, text, b"stop", *gateway),
        Line::Open { gateway } => append_one(alloc, text, b"open", *gateway),
        Line::Arm {
            gateway,
            call,
            mode,
        } => append_armed(alloc, text, b"arm", *gateway, *call, *mode),
        Line::Fail { gateway, call } => append_two(alloc, text, b"fail", *gateway, *call),
        Line::ArmShelf {
            gateway,
            call,
            mode,
        } => append_armed(alloc, text, b"armshelf", *gateway, *call, *mode),
        Line::FailShelf { gateway, call } => {
            append_two(alloc, text, b"failshelf", *gateway, *call)
        }
        Line::Settle => append(text, b"settle"),
    }
}

/// `NAME N`
fn append_one(alloc: Global, text: &mut Vec<u8>, name: &[u8], number: u64) -> Result<(), NoMemory>
    ensures { OnOk result (text.new.items ≡ text.old.items ++ one_number name.now number) }
{
    append(text, name)?;
    append_number(alloc, text, number)
}

/// `NAME N M`
fn append_two(
    alloc: Global,
    text: &mut Vec<u8>,
    name: &[u8],
    first: u64,
    second: u64,
) -> Result<(), NoMemory>
    ensures { OnOk result (text.new.items ≡ text.old.items ++ two_numbers name.now first second) }
{
    append(text, name)?;
    append_number(alloc, text, first)?;
    append_number(alloc, text, second)
}

/// The name, with the gateway after it in a replay.
fn append_gateway(
    alloc: Global,
    text: &mut Vec<u8>,
    kind: ScriptKind,
    name: &[u8],
    gateway: u64,
) -> Result<(), NoMemory>
    ensures { OnOk result (text.new.items ≡ text.old.items ++ gateway_text kind name.now gateway) }
{
    match kind {
        ScriptKind::Feed | ScriptKind::Serve => append(text, name),
        ScriptKind::Replay => append_one(alloc, text, name, gateway),
    }
}

fn append_offset(text: &mut Vec<u8>, minutes: i16) -> Result<(), NoMemory>
    ensures { OnOk result (text.new.items ≡ text.old.items ++ codes "offset" ++ words_text (offset_text minutes ∷ [])) }
{
    append(text, b"offset ")?;
    text.push(if minutes < 0 { b'-' } else { b'+' })?;
    append_hours(text, minutes.unsigned_abs())
}

/// `HH:MM`
fn append_hours(text: &mut Vec<u8>, minutes: u16) -> Result<(), NoMemory>
    ensures { OnOk result (text.new.items ≡ text.old.items ++ hours_text minutes) }
{
    append_digits(text, minutes / 60)?;
    text.push(b':')?;
    append_digits(text, minutes % 60)
}

/// A number in two digits.
fn append_digits(text: &mut Vec<u8>, number: u16) -> Result<(), NoMemory>
    requires { number < 2000 }
    ensures { OnOk result (text.new.items ≡ text.old.items ++ two_digits_text number) }
{
    text.push(b'0' + (number / 10) as u8)?;
    text.push(b'0' + (number % 10) as u8)?;
    Ok(())
}

fn append_datagram(
    alloc: Global,
    text: &mut Vec<u8>,
    from: Addr,
    octets: &[u8],
) -> Result<(), NoMemory>
    ensures { OnOk result (text.new.items ≡ text.old.items
        ++ codes "in" ++ words_text (address_text from ∷ encode_upper octets.now ∷ [])) }
{
    append(text, b"in")?;
    append_address(alloc, text, from)?;
    append_octets(alloc, text, octets)
}

/// An address and its port, as a word.
#[tactic(auto, using(crate::proofs::SampleLemmas::five_parts))]
fn append_address(alloc: Global, text: &mut Vec<u8>, from: Addr) -> Result<(), NoMemory>
    ensures { OnOk result (text.new.items ≡ text.old.items ++ 32 ∷ address_text from) }
{
    text.push(b' ')?;
    append_pair(alloc, text, from.ip / 16_777_216, from.ip / 65_536 % 256)?;
    text.push(b'.')?;
    append_pair(alloc, text, from.ip / 256 % 256, from.ip % 256)?;
    append_port(alloc, text, from.port)
}

/// Two numbers and a dot between them.
fn append_pair(alloc: Global, text: &mut Vec<u8>, first: u32, second: u32) -> Result<(), NoMemory>
    ensures { OnOk result (text.new.items ≡ text.old.items ++ pair_text first second) }
{
    let word = format!(in alloc; "{first}.{second}")?;
    append(text, word.as_bytes())
}

/// A port after a colon.
fn append_port(alloc: Global, text: &mut Vec<u8>, port: u16) -> Result<(), NoMemory>
    ensures { OnOk result (text.new.items ≡ text.old.items ++ 58 ∷ decimal port) }
{
    text.push(b':')?;
    let word = format!(in alloc; "{port}")?;
    append(text, word.as_bytes())
}

/// `submit N FORMAT VERSION HEX..`
fn append_packet(
    alloc: Global,
    text: &mut Vec<u8>,
    node: u64,
    format: u8,
    version: u16,
    records: &[Octets],
) -> Result<(), NoMemory>
    ensures { OnOk result (text.new.items ≡ text.old.items
        ++ two_numbers (codes "submit") node format
        ++ words_text (version_text version ∷ map encode_upper records.now)) }
{
    append_two(alloc, text, b"submit", node, u64::from(format))?;
    append_octets(alloc, text, &[(version / 256) as u8, (version % 256) as u8])?;
    append_records(alloc, text, records)
}

/// Records in hexadecimal, each as a word.
#[tactic(auto, using(crate::proofs::ScriptLemmas::words_more))]
fn append_records(alloc: Global, text: &mut Vec<u8>, records: &[Octets]) -> Result<(), NoMemory>
    ensures { OnOk result (text.new.items ≡ text.old.items ++ words_text (map encode_upper records.now)) }
{
    for record in records {
        append_octets(alloc, text, record.octets())?;
    }
    Ok(())
}

/// `redirect G CAUSE` or `redirect G CAUSE H`
fn append_redirect(
    alloc: Global,
    text: &mut Vec<u8>,
    gateway: u64,
    cause: u8,
    to: Option<u64>,
) -> Result<(), NoMemory>
    ensures { OnOk result (text.new.items ≡ text.old.items ++ redirect_text gateway cause to) }
{
    append_two(alloc, text, b"redirect", gateway, u64::from(cause))?;
    match to {
        Some(to) => append_number(alloc, text, to),
        None => Ok(()),
    }
}

/// `NAME G K MODE`
fn append_armed(
    alloc: Global,
    text: &mut Vec<u8>,
    name: &[u8],
    gateway: u64,
    call: u64,
    mode: Mode,
) -> Result<(), NoMemory>
    ensures { OnOk result (text.new.items ≡ text.old.items ++ armed_text name.now gateway call mode) }
{
    append_two(alloc, text, name, gateway, call)?;
    match mode {
        Mode::Old => append_word(text, b"old"),
        Mode::New => append_word(text, b"new"),
        Mode::Rot => append_word(text, b"rot"),
    }
}

/// Octets in hexadecimal, as a word.
fn append_octets(alloc: Global, text: &mut Vec<u8>, octets: &[u8]) -> Result<(), NoMemory>
    ensures { OnOk result (text.new.items ≡ text.old.items ++ 32 ∷ encode_upper octets.now) }
{
    let digits = hex::encode_upper(alloc, octets)?;
    append_word(text, digits.as_bytes())
}

fn append(text: &mut Vec<u8>, octets: &[u8]) -> Result<(), NoMemory>
    ensures { OnOk result (text.new.items ≡ text.old.items ++ octets.now) }
{
    text.extend_from_slice(octets)?;
    Ok(())
}
