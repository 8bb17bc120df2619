//! The files of a test's folder, each call by itself. Where the system refuses one the test ends.
use std::alloc::AllocGlobal;
use std::fs;
use std::fs::{File, Files, OpenOptions};
use std::process::Abort;

/// Writes a file with this text.
pub(crate) fn lay<R: Files + Abort>(rt: &R, path: &str, text: &str) {
    assert!(rt; fs::write(rt, path, text).is_ok(), "{path}");
}

pub(crate) fn make_folder<R: Files + Abort>(rt: &R, path: &str) {
    assert!(rt; fs::create_dir(rt, path).is_ok(), "{path}");
}

/// A file has this text.
pub(crate) fn holds<R: Files + AllocGlobal + Abort>(rt: &R, path: &str, text: &str) {
    match fs::read_to_string(rt, path) {
        Ok(found) => assert_eq!(rt; found.as_str(), text, "{path}"),
        Err(_) => panic!(rt; "{path} is not read"),
    }
}

pub(crate) fn is_there<R: Files + Abort>(rt: &R, path: &str) -> bool {
    match fs::exists(rt, path) {
        Ok(there) => there,
        Err(_) => panic!(rt; "nobody knows whether {path} is there"),
    }
}

/// How many octets a file has.
pub(crate) fn length<R: Files + Abort>(rt: &R, path: &str) -> u64 {
    match fs::metadata(rt, path) {
        Ok(found) => found.len(),
        Err(_) => panic!(rt; "{path} is not there"),
    }
}

/// A file that is opened so.
pub(crate) fn opened<R: Files<File = File> + Abort>(
    rt: &R,
    options: &OpenOptions,
    path: &str,
) -> File {
    match options.open(rt, path) {
        Ok(file) => file,
        Err(_) => panic!(rt; "{path} is not opened"),
    }
}

/// A file that is made where it is missing, and written at its end.
pub(crate) fn opened_behind<R: Files<File = File> + Abort>(rt: &R, path: &str) -> File {
    opened(rt, OpenOptions::new().append(true).create(true), path)
}
