// Reading a gap fill request.
ghost use Rattle.std.specs.Prelude.{◌≡◌, Ok};
ghost use Rattle.wire.specs.Outcomes.{map_ok, first_fault};
ghost use Rattle.wire.specs.RequestLaw.{RequestByLaw};
ghost use Rattle.wire.specs.Requests.{front_checks, address_checks, count_checks, unread_ranges, read_request};

use crate::address::{Address, AddressRefusals, Expected};
use crate::fault::{Fault, Refusal};
use crate::field::field_at;
use crate::header::split_header;
use crate::limits::VERSION;
use crate::request::ranges::check_ranges;
use crate::request::{
    ExpectedRequest, MAX_RANGES, RANGE_LEN, REQUEST_HEADER_LEN, RangeKind, Ranges, Transport,
};

// The refusals of an address that is not the expected one.
const ADDRESS_REFUSALS: AddressRefusals = AddressRefusals {
    protocol: Refusal::WrongRequestProtocol,
    channel: Refusal::WrongRequestChannel,
    session: Refusal::WrongRequestSession,
};

// Whether a header is of this version and this type.
fn check_front<K: RangeKind>(header: &[u8; REQUEST_HEADER_LEN]) -> Result<(), Fault>
    ensures { result ≡ first_fault (front_checks K.kind header.now) (Ok tt) }
{
    if header[0] != VERSION {
        return Err(Refusal::WrongRequestVersion.at(0));
    }
    if header[1] != K::TYPE {
        return Err(Refusal::WrongRequestType.at(1));
    }
    Ok(())
}

fn check_address(header: &[u8; REQUEST_HEADER_LEN], address: Address) -> Result<(), Fault>
    ensures { result ≡ first_fault (address_checks address header.now) (Ok tt) }
{
    Expected::from(address).check_address(header, ADDRESS_REFUSALS)
}

// Whether there are as many ranges as there may be, and as many bytes as they take.
fn check_count(
    header: &[u8; REQUEST_HEADER_LEN],
    transport: Transport,
    request_len: usize,
) -> Result<(), Fault>
    ensures { result ≡ first_fault (count_checks transport header.now request_len) (Ok tt) }
{
    let count: u32 = field_at(header, 12);
    let count = count as usize;
    if count > MAX_RANGES || (count == 0 && transport == Transport::Stream) {
        return Err(Refusal::WrongRangeCount.at(12));
    }
    if request_len != REQUEST_HEADER_LEN + RANGE_LEN * count {
        return Err(Refusal::WrongRequestLength.at(request_len as u64));
    }
    Ok(())
}

// What a request asks for, or why it is refused. Its ranges borrow it.
pub fn read<'a, K: RangeKind>(
    request: &'a [u8],
    expected: &ExpectedRequest,
) -> Result<Ranges<'a>, Fault>
    ensures value { map_ok unread_ranges result ≡ read_request K.kind expected.now request.now }
    ensures law { RequestByLaw K.kind expected.now request.now (map_ok unread_ranges result) }
{
    let (header, body) = split_header(request, Refusal::ShortRequest)?;
    check_front::<K>(header)?;
    check_address(header, expected.address)?;
    check_count(header, expected.transport, request.len())?;
    let (ranges, _) = body.as_chunks();
    check_ranges::<K, _>(ranges, expected.after)?;
    Ok(Ranges::new(ranges))
}
