// A segment: a header of 40 bytes, then its messages, one block each.
mod reading;
mod writing;

pub use self::reading::read;
pub use self::writing::{Bodies, write};
use crate::address::Address;
use crate::messages::Messages;

// How many bytes a header has.
pub const HEADER_LEN: usize = 40;

// What a header says. The length of the payload is not kept: it is the length of the datagram less the header.
#[derive(Clone, Copy, Debug)]
pub struct Header {
    pub address: Address,
    // where the payload begins in the stream
    pub offset: u64,
    // the number of the first message, or of the next one where there is none
    pub first: u64,
    // how many messages there are
    pub count: u16,
    // when the segment was sent, in nanoseconds since 1970
    pub time: i64,
}

// What a segment carries: nothing, or messages, which borrow the payload part of the datagram.
// No `Option`: by a rule of the project the two cases have names.
#[derive(Clone, Copy, Debug)]
pub enum Content<'a> {
    Heartbeat,
    Messages(Messages<'a>),
}

// An accepted datagram.
#[derive(Clone, Copy, Debug)]
pub struct Segment<'a> {
    pub header: Header,
    pub content: Content<'a>,
}
