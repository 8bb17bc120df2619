//! Stories of the job: for each the words and the input, and what the job writes for them and how it ends. They are the
//! tests of `run_cgf` that say no more than that, and the gate compares them all at once with the file `stdout`.
//!
//! Each story is a group of the standard input, as `run_lines` reads them: a line with the words, and the input, which is
//! all up to the empty line in front of the next name. Where that empty line lacks, the last line of the input lacks its
//! line feed. An input that isn't text is `octets ` and its octets in hexadecimal; so is what is written for a stream,
//! whose last word says how many octets its source gives a call. The files of the shelf that a stream leaves follow, and
//! how many books and nodes a loop hands back.
#![tactic(auto)]

mod job;

use crate::job::{Done, run};
use cdr_shelf::QuietShelf;
use run_lines::{first_line, tell_groups};
use std::alloc::Global;
use std::io;
use std::sync::Wait;
use std::thread::Threads;
use std::time::Clock;

/// What the words of a story begin with that is a stream: what is written for it is told in hexadecimal.
const STREAM: &str = "stream ";

/// How many files are told of a story, at most.
const MOST_FILES: usize = 100;

fn main(rt: HostRuntime) -> io::Result<()> {
    tell_groups(
        &rt,
        "What the job writes for each story of the file stdin, and how it ends.",
        |story| tell(&rt, story),
    )
}

/// Runs a story and prints what the job writes, its status, and what it hands back.
fn tell<R: Threads + Wait + Clock + Sync + Print + Alloc<A = Global>>(
    rt: &R,
    story: &str,
) -> io::Result<()> {
    let (words, input) = first_line(story)?;
    let Done {
        status,
        printed,
        shelf,
        looped,
        played,
    } = run(rt, words, input)?;
    if words.starts_with(STREAM) {
        println!(rt; "octets {}", hex::encode_upper(rt.alloc(), &printed)?)?;
    } else {
        rt.write_all(&printed)?;
    }
    println!(rt; "status {}, {status}", status.number())?;
    tell_files(rt, &shelf)?;
    let (books, nodes) = looped;
    if books > 0 {
        println!(rt; "looped: books {books}, nodes {nodes}")?;
    }
    if let Some((areas, shelves, nodes)) = played {
        println!(rt; "handed back: areas {areas}, shelves {shelves}, nodes {nodes}")?;
    }
    Ok(())
}

/// Prints the sealed files of the shelf that was handed back.
fn tell_files<R: Print + Alloc<A = Global>>(rt: &R, shelf: &QuietShelf) -> io::Result<()> {
    'files: for k in 0..MOST_FILES {
        let Some((name, octets)) = shelf.nth(k) else {
            break;
        };
        let digits = hex::encode_upper(rt.alloc(), octets)?;
        println!(rt;
            "file {:02}-{:010}.cdr {digits}",
            name.stream, name.sequence
        )?;
    }
    Ok(())
}
