//! What `serve` is asked for.
ghost use Rattle.std.specs.Prelude.{◌≡◌, ◌≤◌, ◌∷◌, ℕ, [], false, IfSome, List, map, string_bytes};
ghost use Rattle.gate_journal.specs.Format.{fewest_octets, most_octets};
ghost use Rattle.world_script.specs.Values.{number_between};
ghost use Rattle.cgf_service.specs.Serving.{IsServingWithin, serve_places_of, serve_places_seen, serving_by, serving_of};
ghost use Rattle.cgf_jobs.specs.Words.{is_option};

use cgf_jobs::is_option;
use route_filter::number;
use world_script::{ipv4, number_between};

/// The numbers of `serve IP PORT TURNS LENGTH AREA FOLDER`: where a gateway serves, for how many turns of its link, and
/// how many octets its journal's area has.
#[derive(Clone, Copy)]
pub struct Serving {
    /// The IPv4 address that its links are made at.
    pub ip: u32,
    /// The port there.
    pub port: u16,
    /// From 1 to 1,099,511,627,776.
    pub turns: u64,
    /// From 100 to 268,435,456.
    pub length: u64,
}

/// The outside of `serve`: the length of the area of its journal, the path of the area's file, and that of the folder of
/// its files.
#[derive(Clone, Copy)]
pub struct ServePlaces<'a> {
    /// From 100 to 268,435,456.
    pub length: u64,
    /// A file that is made where there is none.
    pub area: &'a str,
    /// A folder that is there.
    pub folder: &'a str,
}

/// The most turns that a gateway may be asked to serve for.
const MOST_TURNS: u64 = 1_099_511_627_776;

/// The fewest and the most octets of a journal's area.
const FEWEST_OCTETS: u64 = 100;

const MOST_OCTETS: u64 = 268_435_456;

impl Serving {
    /// What the words ask, where they are those of `serve`.
    pub fn of(words: &[String]) -> Option<Serving>
        ensures asked { result ≡ serving_of (map string_bytes words.now) }
        ensures within { IfSome result IsServingWithin }
    {
        let [name, ip, port, turns, length, area, folder] = words else {
            return None;
        };
        if is_option(area.as_bytes()) {
            return None;
        }
        if is_option(folder.as_bytes()) {
            return None;
        }
        by_name(name, ip, port, turns, length)
    }
}

/// The outside of `serve`, for whoever makes it: there exactly where the words are those of `serve`.
pub fn serve_places(words: &[String]) -> Option<ServePlaces<'_>>
    ensures seen { serve_places_seen result ≡ serve_places_of (map string_bytes words.now) }
    ensures within { IfSome result (λ places. (fewest_octets ≤ places.length) × (places.length ≤ most_octets)) }
{
    let [_, _, _, _, _, area, folder, ..] = words else {
        return None;
    };
    let serving = Serving::of(words)?;
    Some(ServePlaces {
        length: serving.length,
        area: area.as_str(),
        folder: folder.as_str(),
    })
}

/// What these numbers say, where the name is that of the command.
#[tactic(auto, using(crate::proofs::ServingWords::chosen))]
fn by_name(
    name: &String,
    ip: &String,
    port: &String,
    turns: &String,
    length: &String,
) -> Option<Serving>
    ensures asked { (area folder : List ℕ) → is_option area ≡ false → is_option folder ≡ false →
        result ≡ serving_of (string_bytes name.now ∷ string_bytes ip.now ∷ string_bytes port.now
        ∷ string_bytes turns.now ∷ string_bytes length.now ∷ area ∷ folder ∷ []) }
    ensures within { IfSome result IsServingWithin }
{
    if name.as_str() == "serve" {
        by_numbers(
            ip.as_bytes(),
            port.as_bytes(),
            turns.as_bytes(),
            length.as_bytes(),
        )
    } else {
        None
    }
}

/// What these numbers say, where each is one in its range.
fn by_numbers(ip: &[u8], port: &[u8], turns: &[u8], length: &[u8]) -> Option<Serving>
    ensures said { result ≡ serving_by ip.now port.now turns.now length.now }
    ensures within { IfSome result IsServingWithin }
{
    Some(Serving {
        ip: ipv4(ip)?,
        port: number(port, 65_535)? as u16,
        turns: number_between(1, MOST_TURNS, turns)?,
        length: length_of_area(length)?,
    })
}

/// How many octets the area of a journal has, where the word says a number in its range.
pub(crate) fn length_of_area(word: &[u8]) -> Option<u64>
    ensures said { result ≡ number_between fewest_octets most_octets word.now }
    ensures within { IfSome result (λ n. (fewest_octets ≤ n) × (n ≤ most_octets)) }
{
    number_between(FEWEST_OCTETS, MOST_OCTETS, word)
}
