// What a gateway serves with.
use crate::stop::Stop;
use area_disk::Area;
use cdr_shelf::Shelf;
use file_writer::Writer;
use gateway_book::Book;
use gw_base::{Addr, Moment};
use net_link::Link;

/// What a gateway serves with: its book, its writer of files, its address, and five links of it. The first one
/// receives, and the others send, one for each session.
#[derive(Drop)]
pub struct Gateway<A: Area, F: Shelf, L: Link> {
    pub book: Book<A>,
    pub writer: Writer<F>,
    pub address: Addr,
    pub links: Vec<L>,
}

/// A gateway that has served: what it served with, the latest moment of a job that a session took, and why it ended
/// before it was told to, if it did.
#[derive(Drop)]
pub struct Ran<A: Area, F: Shelf, L: Link> {
    pub gateway: Gateway<A, F, L>,
    pub last: Option<Moment>,
    pub stop: Option<Stop>,
}
