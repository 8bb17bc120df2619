//! How a gateway ended that served, or answered a stream.
use area_disk::Area;
use cdr_shelf::Shelf;
use cgf_jobs::Status;

/// How it ended, and what it hands back.
#[derive(Drop)]
pub struct GatewayEnd<A: Area, F: Shelf> {
    /// How its job ended.
    pub status: Status,
    /// The area that was handed in, as the gateway left it.
    pub area: A,
    /// The shelf that was handed in, as the gateway left it.
    pub shelf: F,
}
