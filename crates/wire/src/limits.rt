// Numbers that the wire format fixes.

// The version of the transport, of segments and of requests.
pub const VERSION: u8 = 1;

// The largest Long. A field of a negative Long reads as a number above it.
pub const LONG_MAX: u64 = 0x7fff_ffff_ffff_ffff;

// The most bytes of a datagram.
pub const MAX_DATAGRAM: usize = 65535;

// The most bytes of a payload: what a datagram holds behind the header.
pub const MAX_PAYLOAD: usize = 65495;

// The most data that a block may have.
pub const MAX_MESSAGE: usize = 1430;
