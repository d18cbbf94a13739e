// A gap fill request: a header of 16 bytes, then the ranges that it asks for, 16 bytes each.
ghost use Rattle.std.specs.Prelude.{◌≡◌, ℕ, refl};
ghost use Rattle.wire.specs.Requests.{Kind, by_numbers, by_bytes};

mod ranges;
mod reading;
mod writing;

pub use self::ranges::Ranges;
pub use self::reading::read;
pub use self::writing::write;
use crate::address::Address;

// How many bytes the header of a request has.
pub const REQUEST_HEADER_LEN: usize = 16;

// How many bytes a range has.
pub const RANGE_LEN: usize = 16;

// The most ranges of a request.
pub const MAX_RANGES: usize = 64;

// A range of message numbers or of stream bytes, from `first` to `last`, both included.
#[derive(Clone, Copy, Debug, PartialEq, Eq)]
pub struct Range {
    pub first: u64,
    pub last: u64,
}

// A kind of ranges, as a type: a link serves one kind.
pub trait RangeKind {
    // the code in the request's type field
    const TYPE: u8;

    // the lowest value that a range may begin with
    const LOWEST: u64;

    // the two constants, for the contracts, each and together
    ghost TYPE: { ℕ };

    ghost LOWEST: { ℕ };

    ghost kind: { Kind };

    ghost type_is: { TYPE ≡ kind.code };

    ghost lowest_is: { LOWEST ≡ kind.lowest };
}

// Ranges of message numbers, from 1 on.
pub struct ByNumbers;

impl RangeKind for ByNumbers {
    const TYPE: u8 = 1;

    const LOWEST: u64 = 1;

    ghost TYPE = { by_numbers.code };

    ghost LOWEST = { by_numbers.lowest };

    ghost kind = { by_numbers };

    ghost type_is = { refl };

    ghost lowest_is = { refl };
}

// Ranges of bytes of the session's stream, from 0 on.
pub struct ByBytes;

impl RangeKind for ByBytes {
    const TYPE: u8 = 2;

    const LOWEST: u64 = 0;

    ghost TYPE = { by_bytes.code };

    ghost LOWEST = { by_bytes.lowest };

    ghost kind = { by_bytes };

    ghost type_is = { refl };

    ghost lowest_is = { refl };
}

// How a request comes. A request with no ranges asks a datagram server whether it is there; on a stream it makes no sense.
#[derive(Clone, Copy, Debug, PartialEq, Eq)]
pub enum Transport {
    Datagram,
    Stream,
}

// What a reader of requests accepts. Where `after` is a value, it was requested or booked already, and every range must begin above it.
#[derive(Clone, Copy, Debug)]
pub struct ExpectedRequest {
    pub address: Address,
    pub transport: Transport,
    pub after: Option<u64>,
}
