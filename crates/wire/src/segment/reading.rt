// Reading a segment out of a datagram.
ghost use Rattle.std.specs.Prelude.{◌≡◌, IfOk, Ok};
ghost use Rattle.wire.specs.Cursor.{unread};
ghost use Rattle.wire.specs.Outcomes.{map_ok, first_fault};
ghost use Rattle.wire.specs.ReadingLaw.{ByLaw};
ghost use Rattle.wire.specs.Segments.{split_datagram, address_checks, range_checks, header_of, read_segment};
ghost use Rattle.wire.specs.Views.{handed, content_unread, messages_of, plain, HandedInOrder};

use crate::address::{Address, AddressRefusals, Expected};
use crate::block::check_blocks;
use crate::fault::{Fault, Refusal};
use crate::field::field_at;
use crate::header::split_header;
use crate::limits::{LONG_MAX, MAX_DATAGRAM, VERSION};
use crate::messages::Messages;
use crate::segment::{Content, HEADER_LEN, Header, Segment};

// The refusals of an address that is not the expected one.
const ADDRESS_REFUSALS: AddressRefusals = AddressRefusals {
    protocol: Refusal::WrongProtocol,
    channel: Refusal::WrongChannel,
    session: Refusal::WrongSession,
};

// The header and the payload of a datagram that is neither too short nor too long.
fn split_datagram(datagram: &[u8]) -> Result<(&[u8; HEADER_LEN], &[u8]), Fault>
    ensures { map_ok (λ p. (p.0.now, p.1.now)) result ≡ split_datagram datagram.now }
{
    let parts = split_header(datagram, Refusal::ShortDatagram)?;
    if datagram.len() > MAX_DATAGRAM {
        return Err(Refusal::LongDatagram.at(MAX_DATAGRAM as u64));
    }
    Ok(parts)
}

fn check_address(header: &[u8; HEADER_LEN], expected: &Expected) -> Result<(), Fault>
    ensures { result ≡ first_fault (address_checks expected.now header.now) (Ok tt) }
{
    if header[0] != VERSION {
        return Err(Refusal::WrongVersion.at(0));
    }
    expected.check_address(header, ADDRESS_REFUSALS)
}

// Whether the length of a datagram and the numbers that its header names are in range.
fn check_ranges(header: &[u8; HEADER_LEN], datagram_len: usize) -> Result<(), Fault>
    ensures { result ≡ first_fault (range_checks header.now datagram_len) (Ok tt) }
{
    let payload: u16 = field_at(header, 12);
    if datagram_len != HEADER_LEN + usize::from(payload) {
        return Err(Refusal::WrongLength.at(12));
    }
    let count: u16 = field_at(header, 14);
    let first: u64 = field_at(header, 24);
    if first < 1 || first > LONG_MAX - u64::from(count) {
        return Err(Refusal::OutOfRange.at(24));
    }
    let offset: u64 = field_at(header, 16);
    if offset > LONG_MAX - u64::from(payload) {
        return Err(Refusal::OutOfRange.at(16));
    }
    Ok(())
}

fn read_header(header: &[u8; HEADER_LEN]) -> Header
    ensures { result ≡ header_of header.now }
{
    Header {
        address: Address {
            protocol: field_at(header, 2),
            channel: field_at(header, 4),
            session: field_at(header, 8),
        },
        offset: field_at(header, 16),
        first: field_at(header, 24),
        count: field_at(header, 14),
        time: field_at::<8, u64>(header, 32).cast_signed(),
    }
}

// What a payload carries whose blocks were checked.
fn read_content<'a>(header: &Header, payload: &'a [u8]) -> Content<'a>
    ensures { handed result ≡ content_unread header.now payload.now }
{
    if header.count == 0 {
        Content::Heartbeat
    } else {
        Content::Messages(Messages::new(payload, header.count, header.first, header.offset))
    }
}

impl<'a> Content<'a> {
    // The messages, of which a heartbeat has none.
    pub fn messages(self) -> Messages<'a>
        ensures { unread result ≡ messages_of (handed self.entry) }
    {
        match self {
            Content::Heartbeat => Messages::new(&[], 0, 0, 0),
            Content::Messages(messages) => messages,
        }
    }
}

// What a datagram says, or why it is refused. Its messages borrow it.
pub fn read<'a>(datagram: &'a [u8], expected: &Expected) -> Result<Segment<'a>, Fault>
    ensures value { map_ok plain result ≡ read_segment expected.now datagram.now }
    ensures content { IfOk result HandedInOrder }
    ensures law { ByLaw expected.now datagram.now (map_ok plain result) }
{
    let (header, payload) = split_datagram(datagram)?;
    check_address(header, expected)?;
    check_ranges(header, datagram.len())?;
    let header = read_header(header);
    check_blocks(header.count, HEADER_LEN as u64, payload)?;
    let content = read_content(&header, payload);
    Ok(Segment { header, content })
}
