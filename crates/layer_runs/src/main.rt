//! Calls of the lower layers, a line each: what a datagram is read as, what an entry's octets say, how a list is judged.
//! The gate compares what they answer with the file `stdout`.
//!
//! The standard input is a text about the lines, and then groups of them: a line `== NAME`, and lines up to the empty
//! one in front of the next name. A line is a form and its words, as `ber 0101FF`; the first lines of each module say
//! which forms it has. Octets are in hexadecimal, and `-` where there are none. What lines of a group add to, rules, a
//! text, a history, the files of a stream, held copies, a node's paths, begins anew with each group.
#![tactic(auto)]

mod cases;
mod cdrs;
mod datagrams;
mod elements;
mod entries;
mod files;
mod held;
mod histories;
mod nodes;
mod outside;
mod paths;
mod rules;
mod scene;
mod scripts;
mod transfers;
mod values;
mod words;

use crate::scene::Scene;
use run_lines::{Answer, bad, first_word, tell_lines, there};
use std::io;

fn main(rt: HostRuntime) -> io::Result<()> {
    tell_lines::<Scene, _>(
        &rt,
        "What the lower layers answer to each line of the file stdin.",
    )
}

impl Answer<HostRuntime> for Scene {
    fn begin(rt: &HostRuntime) -> io::Result<Scene> {
        Scene::new(rt.alloc())
    }

    fn answer(&mut self, rt: &HostRuntime, line: &str) -> io::Result<()> {
        let (form, words) = first_word(line);
        match form {
            "kind" => values::kind(rt, words),
            "near" => values::near(rt, words),
            "ber" => values::ber(rt, words),
            "identifier" => values::identifier(rt, words),
            "header" => elements::header(rt, words),
            "headed" => elements::headed(rt, words),
            "element" => elements::element(rt, words),
            "numbers" => elements::numbers(rt, words),
            "put" => elements::put_one(rt, &mut self.buffer, words),
            "decide" => transfers::decided(rt, words),
            "judge" => transfers::judged(rt, words),
            "read" => datagrams::read_one(rt, words),
            "write" => datagrams::write_one(rt, &mut self.buffer, words),
            "short" => datagrams::short(rt, words),
            "packet" => datagrams::packet(rt, words),
            "event" => datagrams::event(rt, words),
            "message" => datagrams::message(rt, words),
            "entry" => entries::entry(rt, words),
            "spell" => entries::spell(rt, &mut self.buffer, words),
            _ => answer_of_scene(rt, self, form, words),
        }
    }
}

/// Prints what a line is answered that adds to what lines before it said, or asks it.
fn answer_of_scene(rt: &HostRuntime, scene: &mut Scene, form: &str, words: &str) -> io::Result<()> {
    match form {
        "room" => scene.begin_buffer(rt, words),
        "front" => scripts::front(rt, &mut scene.text, words),
        "script" => scripts::script(rt, &scene.text, words),
        "says" => scripts::says(rt, words),
        "sample" => scripts::sampled(rt, words),
        "add" => rules::add(rt, &mut scene.rules, words),
        "fill" => rules::fill(rt, &mut scene.rules, words),
        "stream" => rules::stream(rt, &scene.rules, words),
        "gateway" => paths::gateway(rt, words),
        "node" => paths::node(rt, &mut scene.path, words),
        "limits" => files::limits(rt, &mut scene.cutter, words),
        "record" => files::record(rt, there(&mut scene.cutter)?, words),
        "tick" => files::mark(rt, there(&mut scene.cutter)?, false, words),
        "close" => files::mark(rt, there(&mut scene.cutter)?, true, words),
        "hold" => held::hold(rt, &mut scene.held, words),
        "hold-first" => held::hold_first(rt, &mut scene.held, words),
        "find" => held::find(rt, &scene.held, words),
        "take" => held::take(rt, &mut scene.held, words),
        "drop" => held::drop_node(rt, &mut scene.held, words),
        "act" => histories::act(rt, &mut scene.history, words),
        "key" => histories::key(rt, &scene.history, words),
        "epoch" => histories::epoch_and_top(rt, &scene.history, words),
        "begun" => histories::begun(rt, &scene.history, words),
        "copies" => histories::copies(rt, &scene.history, words),
        "moment" => histories::moment(rt, &scene.history, words),
        "due" => histories::due(rt, &scene.history, words),
        "told" => histories::told(rt, &scene.history),
        "owned" => histories::owned(rt, &scene.history, words),
        _ => answer_of_node(rt, scene, form, words),
    }
}

/// Prints what a line on a serving node is answered.
fn answer_of_node(rt: &HostRuntime, scene: &mut Scene, form: &str, words: &str) -> io::Result<()> {
    match form {
        "serving" => nodes::serving(rt, &mut scene.serving, words),
        "ready" => nodes::ready(rt, &mut scene.serving, words),
        "submit" => nodes::submit(rt, there(&mut scene.serving)?),
        "turn" => nodes::turn(rt, there(&mut scene.serving)?),
        "hears" => nodes::hears(rt, there(&mut scene.serving)?, words),
        "restart" => nodes::restart(rt, there(&mut scene.serving)?),
        "packets" => nodes::packets(rt, there(&mut scene.serving)?),
        "draft" => nodes::begin_draft(rt, &mut scene.draft, words),
        "grow" => nodes::grow(rt, &mut scene.draft, words),
        "grow-zeros" => nodes::grow_zeros(rt, &mut scene.draft, words),
        _ => answer_outside(rt, scene, form, words),
    }
}

/// Prints what a line on the outside in memory, a CDR file or a table of cases is answered.
fn answer_outside(rt: &HostRuntime, scene: &mut Scene, form: &str, words: &str) -> io::Result<()> {
    match form {
        "source" => outside::source(rt, &mut scene.source, words),
        "pull" => outside::pull(rt, &mut scene.source, words),
        "sink" => outside::sink(rt, &mut scene.sink, words),
        "push" => outside::push(rt, &mut scene.sink, words),
        "clock" => outside::clock(rt, &mut scene.clock, words),
        "now" => outside::now(rt, there(&mut scene.clock)?),
        "stamp" => cdrs::stamped(rt, words),
        "fields" => cdrs::fields(rt, words),
        "file" => cdrs::file(rt, words),
        "file-2" => cdrs::file_of_profile_2(rt, words),
        "file-head" => cdrs::file_head(rt, words),
        "cdr-head" => cdrs::cdr_head(rt, words),
        "listed" => cdrs::listed(rt, words),
        "long" => cdrs::long(rt, words),
        "doubled" => cases::doubled(rt, words),
        "row" => cases::row(rt, words),
        _ => Err(bad()),
    }
}
