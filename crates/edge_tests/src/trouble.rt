use area_disk::Area;
use cgf_edge::{FileArea, Trouble};
use std::alloc::AllocGlobal;
use std::io;
use std::process::Abort;

/// `EIO` of Linux.
const EIO: i32 = 5;

/// A trouble is told by this text.
fn says<R: AllocGlobal + Abort>(rt: &R, trouble: Trouble, text: &str) {
    match format!(in rt.alloc(); "{trouble}") {
        Ok(said) => assert_eq!(rt; said.as_str(), text),
        Err(_) => panic!(rt; "no memory for a text"),
    }
}

#[test]
fn each_trouble_says_what_happened(rt: HostRuntime) {
    let refused = io::Error::from_raw_os_error(EIO);
    says(&rt, Trouble::Locked, "locked by another process");
    says(&rt, Trouble::NotAFile, "not a regular file");
    says(&rt, Trouble::Length(12), "another length: 12 octets");
    says(&rt, Trouble::Sealed, "a sealed file has that name");
    says(&rt, Trouble::NoFile, "no file was begun");
    says(&rt, Trouble::Unsynced, "an earlier sync failed");
    says(
        &rt,
        Trouble::System(refused),
        "Input/output error (os error 5)",
    );
}

/// An area that has failed no call yet has no trouble.
#[test]
fn what_the_system_refuses_is_told_as_it_says_it(rt: HostRuntime) {
    let mut area = FileArea::new(rt.alloc(), &rt, "missing/a.area", 100);
    assert!(rt; area.trouble().is_none());
    assert!(rt; area.sync().is_err());
    let Some(trouble) = area.trouble() else {
        panic!(rt; "no trouble");
    };
    says(&rt, trouble, "No such file or directory (os error 2)");
}
