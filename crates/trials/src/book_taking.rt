// A book takes datagrams.
use crate::book::{FROM, REQUEST, area, closes, commits, failing, opened, sends, settles, ticks};
use area_disk::MemoryArea;
use gateway_book::{Book, Marked, Settled};
use std::process::Abort;

// After a commit that failed the request is refused while the device fails, and then found: the batch stood after all.
fn is_found_again(rt: &impl Abort, book: &mut Book<MemoryArea>) {
    let failed = sends(rt, book, FROM, &REQUEST, 204);
    assert_eq!(rt; failed.faults, 2);
    let again = sends(rt, book, FROM, &REQUEST, 253);
    settles(rt, book, (again.front, again.faults), Settled::Firm);
}

// A Tick and a Close are each made once.
fn marks_are_made_once(rt: &impl Abort, book: &mut Book<MemoryArea>) {
    let ticked = Marked::Made {
        front: 3,
        faults: 2,
    };
    ticks(rt, book, 5, ticked);
    ticks(rt, book, 64, Marked::NotDue);
    let closed = Marked::Made {
        front: 4,
        faults: 2,
    };
    closes(rt, book, 5, closed);
    closes(rt, book, 5, Marked::NotDue);
}

#[test]
fn a_request_is_answered_and_waits(rt: HostRuntime) {
    let alloc = rt.alloc();
    // five calls of the device make an area anew, the ninth is a commit's last and the tenth opens it again
    let plan = failing(&rt, alloc, &[9, 10]);
    let mut book = opened(&rt, alloc, area(&rt, alloc, 400, plan));
    let first = sends(&rt, &mut book, FROM, &REQUEST, 128);
    assert_eq!(&rt; first.front, 2);
    let answered = (first.front, first.faults);
    settles(&rt, &book, answered, Settled::NotYet { firm: 0 });
    assert!(&rt; !commits(&mut book));
    is_found_again(&rt, &mut book);
    settles(&rt, &book, answered, Settled::Lost { faults: 2 });
    marks_are_made_once(&rt, &mut book);
}
