// The wire format of the feed: why a datagram or a request is refused, what an accepted one says, and how one is written.
#![tactic(auto)]

pub mod address;
pub mod block;
pub mod fault;
mod field;
mod header;
pub mod limits;
pub mod messages;
pub mod request;
pub mod segment;
pub mod session;
