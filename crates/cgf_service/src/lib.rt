//! A gateway that serves: its links for so many turns, or a stream of octets to its end.
//!
//! The model is the history that it leaves, the files that stand for it, and what it wrote: `Serves` of
//! `specs/ServeEnds.antt`, `Streams` of `specs/StreamEnds.antt`. Each of the two commands is a call.
//!
//!     let end = serve_gateway(rt, alloc, serving, &mut source, &mut sink, area, shelf, &mut links, &mut clock);
#![tactic(auto)]

mod connection;
mod gateway_end;
mod serve;
mod serving;
mod settling;
mod stream;
mod streaming;

pub use gateway_end::GatewayEnd;
pub use serve::serve_gateway;
pub use serving::{ServePlaces, Serving, serve_places};
pub use stream::stream_gateway;
pub use streaming::{StreamPlaces, Streaming, stream_places, tcp_address};
