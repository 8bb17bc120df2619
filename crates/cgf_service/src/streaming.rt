//! What `stream` is asked for.
ghost use Rattle.std.specs.Prelude.{◌≡◌, ◌≤◌, ◌∷◌, ℕ, [], false, IfSome, List, map, string_bytes};
ghost use Rattle.gate_journal.specs.Format.{fewest_octets, most_octets};
ghost use Rattle.cgf_service.specs.Streaming.{IsStreamingWithin, stream_places_of, stream_places_seen, streaming_by, streaming_of, tcp_of};
ghost use Rattle.cgf_jobs.specs.Words.{is_option};

use crate::serving::length_of_area;
use cgf_jobs::is_option;
use gw_base::Addr;
use world_script::{address, ipv4};

/// The addresses and the number of `stream IP NODE LENGTH AREA FOLDER FILE`: the gateway's IPv4 address, the address from
/// which each message counts as sent, and how many octets the area of the gateway's journal has.
#[derive(Clone, Copy)]
pub struct Streaming {
    /// The gateway's IPv4 address.
    pub ip: u32,
    /// The address from which each message counts as sent.
    pub node: Addr,
    /// From 100 to 268,435,456.
    pub length: u64,
}

/// The outside of `stream`: the length of the area of its journal, the path of the area's file, that of the folder of its
/// files, and the path of the stream, which `-` names where it is the standard input.
#[derive(Clone, Copy)]
pub struct StreamPlaces<'a> {
    /// From 100 to 268,435,456.
    pub length: u64,
    /// A file that is made where there is none.
    pub area: &'a str,
    /// A folder that is there.
    pub folder: &'a str,
    /// A path, `-`, or `tcp:IP:PORT`.
    pub file: &'a str,
}

impl Streaming {
    /// What the words ask, where they are those of `stream`.
    pub fn of(words: &[String]) -> Option<Streaming>
        ensures asked { result ≡ streaming_of (map string_bytes words.now) }
        ensures within { IfSome result IsStreamingWithin }
    {
        let [name, ip, node, length, area, folder, file] = words else {
            return None;
        };
        if is_option(area.as_bytes()) {
            return None;
        }
        if is_option(folder.as_bytes()) {
            return None;
        }
        if is_option(file.as_bytes()) {
            return None;
        }
        by_name(name, ip, node, length)
    }
}

/// The outside of `stream`, for whoever makes it: there exactly where the words are those of `stream`.
pub fn stream_places(words: &[String]) -> Option<StreamPlaces<'_>>
    ensures seen { stream_places_seen result ≡ stream_places_of (map string_bytes words.now) }
    ensures within { IfSome result (λ places. (fewest_octets ≤ places.length) × (places.length ≤ most_octets)) }
{
    let [_, _, _, _, area, folder, file, ..] = words else {
        return None;
    };
    let streaming = Streaming::of(words)?;
    Some(StreamPlaces {
        length: streaming.length,
        area: area.as_str(),
        folder: folder.as_str(),
        file: file.as_str(),
    })
}

/// The address at which one connection is to be accepted, where a path says one: `tcp:IP:PORT`.
pub fn tcp_address(file: &[u8]) -> Option<Addr>
    ensures { result ≡ tcp_of file.now }
{
    match file {
        [b't', b'c', b'p', b':', rest @ ..] => address(rest),
        _ => None,
    }
}

/// What these words say, where the name is that of the command.
#[tactic(auto, using(crate::proofs::StreamWords::chosen))]
fn by_name(name: &String, ip: &String, node: &String, length: &String) -> Option<Streaming>
    ensures asked { (area folder file : List ℕ) → is_option area ≡ false → is_option folder ≡ false →
        is_option file ≡ false → result ≡ streaming_of (string_bytes name.now ∷ string_bytes ip.now
        ∷ string_bytes node.now ∷ string_bytes length.now ∷ area ∷ folder ∷ file ∷ []) }
    ensures within { IfSome result IsStreamingWithin }
{
    if name.as_str() == "stream" {
        by_values(ip.as_bytes(), node.as_bytes(), length.as_bytes())
    } else {
        None
    }
}

/// What these words say, where each is an address or a number in its range.
fn by_values(ip: &[u8], node: &[u8], length: &[u8]) -> Option<Streaming>
    ensures said { result ≡ streaming_by ip.now node.now length.now }
    ensures within { IfSome result IsStreamingWithin }
{
    Some(Streaming {
        ip: ipv4(ip)?,
        node: address(node)?,
        length: length_of_area(length)?,
    })
}
