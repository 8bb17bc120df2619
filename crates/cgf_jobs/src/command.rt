//! What the program is asked for.

ghost use Rattle.std.specs.Prelude.{◌≡◌, ◌∷◌, ◌≤◌, ℕ, false, List, IfOk, IfSome, map, option_and_then, string_bytes};
ghost use Rattle.std.specs.List.{list_any};
ghost use Rattle.clap.specs.Words.{found_of, rows_of};
ghost use Rattle.cgf_jobs.specs.Command.{IsExtent, IsWithin, command_named, command_of, counted};
ghost use Rattle.cgf_jobs.specs.Command.{most_read, seeded_named, seeded_of};
ghost use Rattle.cgf_jobs.specs.Words.{found_in, is_option};

use crate::words::{has_option, parse};
use clap::ArgMatches;
use gw_base::NoMemory;
use route_filter::number;
use std::alloc::Global;

/// A job that the program does.
#[derive(Clone, Copy)]
pub enum Command {
    /// `feed FILE`: feeds a gateway with the datagrams of a script.
    Feed,
    /// `show FILE`: lists a CDR file.
    Show,
    /// `replay FILE`: runs gateways and nodes by a script.
    Replay,
    /// `sample SEED NODES GATEWAYS PACKETS`: prints the script that a seed gives.
    Sample(Seeded),
    /// `drill SEED NODES GATEWAYS PACKETS`: runs that script, and prints what all count together.
    Drill(Seeded),
}

/// The script that a seed gives of so many nodes, gateways and packets.
#[derive(Clone, Copy)]
pub struct Seeded {
    pub seed: u64,
    /// From 1 to 16.
    pub nodes: u8,
    /// From 1 to 8.
    pub gateways: u8,
    /// From 1 to 20,000.
    pub packets: u32,
}

/// One octet more than the text of a script may have.
pub const MOST_SCRIPT_READ: usize = 16_777_217;

/// One octet more than the length field of a CDR file can say.
const MOST_FILE_READ: usize = 4_294_967_296;

impl Command {
    /// The command that the words ask for, if they are of its form: its name, and a file or numbers. Words with an
    /// option among them are of none, and aren't parsed.
    pub fn of(alloc: Global, words: &[String]) -> Result<Option<Command>, NoMemory>
        ensures asked { IfOk result (λ command. command ≡ command_of (map string_bytes words.now)) }
        ensures within { IfOk result (λ command. IfSome command IsWithin) }
    {
        if has_option(words) {
            return Ok(None);
        }
        match parse(alloc, words) {
            Ok(matches) => Ok(asked_by(&matches)),
            Err(_) => Err(NoMemory),
        }
    }

    /// How many octets of an input can be of use: one more than the command's longest input has, and none where it has
    /// no input.
    pub fn most_read(self) -> usize
        ensures { result ≡ most_read self }
    {
        match self {
            Command::Feed | Command::Replay => MOST_SCRIPT_READ,
            Command::Show => MOST_FILE_READ,
            Command::Sample(_) | Command::Drill(_) => 0,
        }
    }
}

impl Seeded {
    /// The script that these words say, where each is a number in its range.
    pub fn of(seed: &[u8], nodes: &[u8], gateways: &[u8], packets: &[u8]) -> Option<Seeded>
        ensures said { result ≡ seeded_of seed.now nodes.now gateways.now packets.now }
        ensures within { IfSome result IsExtent }
    {
        let seed = number(seed, u64::MAX)?;
        let nodes = counted(nodes, 16)?;
        let gateways = counted(gateways, 8)?;
        let packets = counted(packets, 20_000)?;
        Some(Seeded {
            seed,
            nodes: nodes as u8,
            gateways: gateways as u8,
            packets: packets as u32,
        })
    }
}

/// A number from 1 to `most`.
fn counted(word: &[u8], most: u64) -> Option<u64>
    ensures said { result ≡ counted most word.now }
    ensures within { IfSome result (λ n. (1 ≤ n) × (n ≤ most)) }
{
    let number = number(word, most)?;
    if number == 0 { None } else { Some(number) }
}

/// The command that was found, if its name and its values are of its form.
fn asked_by(matches: &ArgMatches) -> Option<Command>
    ensures asked { (words : List (List ℕ)) → list_any is_option words ≡ false →
        rows_of (found_of matches.now) ≡ found_in words → result ≡ command_of words }
    ensures within { IfSome result IsWithin }
{
    let name = matches.get_str("COMMAND")?;
    let values = matches.get_strs("VALUES")?;
    by_values(name, values)
}

/// The command with this name, if these are its values: a file, or the numbers of a seed's script.
fn by_values(name: &str, values: &[&str]) -> Option<Command>
    ensures asked { list_any (λ value. is_option value.now) values.now ≡ false →
        result ≡ command_of (name.now ∷ map (λ value. value.now) values.now) }
    ensures within { IfSome result IsWithin }
{
    match values {
        [_] => on_file(name),
        [seed, nodes, gateways, packets] => {
            let seeded = Seeded::of(
                seed.as_bytes(),
                nodes.as_bytes(),
                gateways.as_bytes(),
                packets.as_bytes(),
            );
            by_seed(name, seeded)
        }
        _ => None,
    }
}

/// The command with this name that has a file.
fn on_file(name: &str) -> Option<Command>
    ensures asked { result ≡ command_named name.now }
    ensures within { IfSome result IsWithin }
{
    if name == "feed" {
        Some(Command::Feed)
    } else if name == "show" {
        Some(Command::Show)
    } else if name == "replay" {
        Some(Command::Replay)
    } else {
        None
    }
}

/// The command with this name that has a seed, if the words are its numbers.
fn by_seed(name: &str, seeded: Option<Seeded>) -> Option<Command>
    ensures asked { result ≡ option_and_then (seeded_named name.now) seeded }
    ensures within { IfSome seeded IsExtent → IfSome result IsWithin }
{
    let seeded = seeded?;
    if name == "sample" {
        Some(Command::Sample(seeded))
    } else if name == "drill" {
        Some(Command::Drill(seeded))
    } else {
        None
    }
}
