//! Calls of areas, journals, trails and shelves in memory, a line each: what each leaves octet by octet, and after a call
//! that stops or fails. The gate compares what they answer with the file `stdout`.
//!
//! The standard input is groups of lines, as `run_lines` reads them. A line is a form and its words; the first lines of
//! each module say which forms it has. Octets are numbers with commas between them, or as `8x255` so many that are the
//! same.
#![tactic(auto)]

mod areas;
mod journals;
mod plans;
mod scene;
mod shelves;
mod trails;
mod words;

use crate::scene::Scene;
use run_lines::{Answer, bad, first_word, tell_lines, there};
use std::io;

fn main(rt: HostRuntime) -> io::Result<()> {
    tell_lines::<Scene, _>(
        &rt,
        "What areas, journals, trails and shelves answer to each line of the file stdin.",
    )
}

impl Answer<HostRuntime> for Scene {
    fn begin(_: &HostRuntime) -> io::Result<Scene> {
        Ok(Scene::new())
    }

    fn answer(&mut self, rt: &HostRuntime, line: &str) -> io::Result<()> {
        let (form, words) = first_word(line);
        match form {
            "area" => areas::begin(rt, &mut self.area, words),
            "write" => areas::write(rt, there(&mut self.area)?, words),
            "again" => areas::again(rt, there(&mut self.area)?, words),
            "read" => areas::read(rt, there(&mut self.area)?, words),
            "crash" => areas::crash(rt, there(&mut self.area)?, words),
            "device" => areas::tell(rt, there(&mut self.area)?, words),
            "open" => journals::open(rt, self),
            "draft" => journals::draft(rt, self, words),
            "append" => journals::append(rt, there(&mut self.journal)?, words),
            "batch" => journals::batch(rt, there(&mut self.journal)?),
            "journal" => journals::tell(rt, there(&mut self.journal)?, words),
            _ => answer_further(rt, self, form, words),
        }
    }
}

/// Prints what a line on a trail or a shelf is answered, and on the plan of whatever there is.
fn answer_further(rt: &HostRuntime, scene: &mut Scene, form: &str, words: &str) -> io::Result<()> {
    match form {
        "arm" => scene.arm(rt, words),
        "close" => scene.close(rt),
        "open-trail" => trails::open(rt, scene, words),
        "push" => trails::push(rt, there(&mut scene.trail)?, words),
        "commit" => trails::commit(rt, there(&mut scene.trail)?),
        "entry" => trails::entry(rt, there(&mut scene.trail)?, words),
        "place" => trails::place(rt, there(&mut scene.trail)?, words),
        "trail" => trails::tell(rt, there(&mut scene.trail)?, words),
        "shelf" => shelves::begin(rt, &mut scene.shelf),
        "files" => shelves::write_files(rt, there(&mut scene.shelf)?),
        "begin" => shelves::begin_file(rt, there(&mut scene.shelf)?),
        "halves" => shelves::halves(rt, &mut scene.shelf),
        "file" => shelves::file(rt, there(&mut scene.shelf)?, words),
        "sealed" => shelves::sealed(rt, there(&mut scene.shelf)?, words),
        "bench" => shelves::tell(rt, there(&mut scene.shelf)?, words),
        "quiet" => shelves::quiet(rt),
        _ => Err(bad()),
    }
}
