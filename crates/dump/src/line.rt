// What is said of one record of a capture.
ghost use Rattle.std.specs.Prelude.{◌≡◌, Some};
ghost use Rattle.wire.specs.Segments.{read_segment};
ghost use Rattle.dump.specs.Lines.{line_for, line_text};

use std::fmt;
use wire::address::Expected;
use wire::fault::Fault;
use wire::segment::{Content, HEADER_LEN, read};

// The messages of a segment, in short.
#[derive(Clone, Copy, Debug, PartialEq, Eq)]
pub struct Extent {
    pub first: u64,
    pub last: u64,
    // how many they are
    pub count: u16,
    // where the first begins in the stream
    pub offset: u64,
    // the bytes of all their blocks
    pub bytes: usize,
}

// A record's line.
#[derive(Clone, Copy, Debug, PartialEq, Eq)]
pub enum Line {
    Refused(Fault),
    // the number of the next message
    Heartbeat(u64),
    Messages(Extent),
}

// Reads a record as a datagram.
pub fn describe(datagram: &[u8], expected: &Expected) -> Line
    ensures { result ≡ line_for (read_segment expected.now datagram.now) }
{
    match read(datagram, expected) {
        Err(fault) => Line::Refused(fault),
        Ok(segment) => {
            let header = segment.header;
            match segment.content {
                Content::Heartbeat => Line::Heartbeat(header.first),
                Content::Messages(_) => Line::Messages(Extent {
                    first: header.first,
                    last: header.first + u64::from(header.count) - 1,
                    count: header.count,
                    offset: header.offset,
                    bytes: datagram.len() - HEADER_LEN,
                }),
            }
        }
    }
}

impl fmt::Display for Line {
    ghost output = { λ l. Some (line_text l) };

    fn fmt<W: fmt::Write>(&self, f: &mut fmt::Formatter<W>) -> fmt::Result {
        match self {
            Line::Refused(fault) => write!(f, "refused, {fault}"),
            Line::Heartbeat(next) => write!(f, "heartbeat, next {next}"),
            Line::Messages(extent) => write!(
                f,
                "messages {} to {}, offset {}, bytes {}",
                extent.first, extent.last, extent.offset, extent.bytes
            ),
        }
    }
}
