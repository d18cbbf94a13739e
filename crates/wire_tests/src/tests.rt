// What the readers answer.
use crate::cases::{
    Answer, BLOCKS, Case, FIELDS, PAIRS, Patch, SIZES, WRONGS, Wrong, number_and_place,
};
use crate::example::{REQUEST, REQUEST_RANGES, SEGMENT, TEST_REQUEST};
use crate::request_cases::{
    BYTE_RANGES, RANGES, REQUEST_FIELDS, REQUEST_SIZES, REQUEST_WRONGS, STREAM_REQUESTS,
};
use std::alloc::{AllocError, Global};
use std::process::Abort;
use std::test::Fail;
use wire::address::{Address, Expected};
use wire::fault::Refusal;
use wire::request;
use wire::request::{ByBytes, ByNumbers, ExpectedRequest, Range, RangeKind, Transport};
use wire::segment::{Content, read};

pub const ADDRESS: Address = Address {
    protocol: 0x8004,
    channel: 1,
    session: 0x4287_0000,
};

pub const EXPECTED: Expected = Expected {
    protocol: 0x8004,
    channel: 1,
    session: Some(0x4287_0000),
};

// By datagrams, and nothing requested before.
pub const BY_DATAGRAM: ExpectedRequest = ExpectedRequest {
    address: ADDRESS,
    transport: Transport::Datagram,
    after: None,
};

const BY_STREAM_AFTER_9: ExpectedRequest = ExpectedRequest {
    address: ADDRESS,
    transport: Transport::Stream,
    after: Some(9),
};

// The first bytes of a right header: version, reserved byte, protocol, channel, session.
const FRONT: Patch = (0, &[1, 0, 4, 0x80, 1, 0, 0, 0, 0, 0, 0x87, 0x42]);

// Writes bytes over parts of an input, patch after patch, as far as there is room.
fn put(input: &mut [u8], patches: &[Patch]) {
    for (at, bytes) in patches {
        for (place, byte) in input.iter_mut().skip(*at).zip(*bytes) {
            *place = *byte;
        }
    }
}

// An input of the front of a right header, its other fields and 0 behind them, and then the patches. Length and patches are two columns
// of the tables, and no struct: each row would have to name its fields.
fn input(
    heap: Global,
    length: usize,
    fields: &[Patch],
    patches: &[Patch],
) -> Result<Vec<u8>, AllocError> {
    let mut bytes = vec![in heap; 0u8; length]?;
    put(&mut bytes, &[FRONT]);
    put(&mut bytes, fields);
    put(&mut bytes, patches);
    Ok(bytes)
}

// How many messages the reader of segments hands out.
#[tactic(auto, using(wire::proofs::Cursor::unread_at_most))]
fn segment_answer(datagram: &[u8]) -> Answer {
    let segment = read(datagram, &EXPECTED).map_err(number_and_place)?;
    Ok(segment.content.messages().count())
}

// How many messages the header of a segment says there are.
fn count_answer(datagram: &[u8]) -> Answer {
    let segment = read(datagram, &EXPECTED).map_err(number_and_place)?;
    Ok(usize::from(segment.header.count))
}

// A datagram that is right but for the patches.
fn datagram(heap: Global, length: usize, patches: &[Patch]) -> Result<Vec<u8>, AllocError> {
    let payload = ((length.saturating_sub(40) % 65536) as u16).to_le_bytes();
    input(heap, length, &[(12, &payload), (24, &[1])], patches)
}

// What is answered to such a datagram, by what is handed out.
fn segments(heap: Global, length: usize, patches: &[Patch]) -> Result<Answer, AllocError> {
    Ok(segment_answer(&datagram(heap, length, patches)?))
}

// The same, by what the header says.
fn counts(heap: Global, length: usize, patches: &[Patch]) -> Result<Answer, AllocError> {
    Ok(count_answer(&datagram(heap, length, patches)?))
}

// How many ranges the reader of requests hands out.
fn request_answer<K: RangeKind>(request: &[u8], expected: &ExpectedRequest) -> Answer {
    let ranges = request::read::<K>(request, expected).map_err(number_and_place)?;
    Ok(ranges.count())
}

// What is answered to a request that is right but for the patches.
fn requests<K: RangeKind>(
    heap: Global,
    expected: &ExpectedRequest,
    length: usize,
    patches: &[Patch],
) -> Result<Answer, AllocError> {
    let ranges = ((length.saturating_sub(16) / 16 % 65536) as u16).to_le_bytes();
    let request = input(heap, length, &[(1, &[1]), (12, &ranges)], patches)?;
    Ok(request_answer::<K>(&request, expected))
}

// The same, by datagrams, where nothing was requested before.
fn datagram_requests<K: RangeKind>(
    heap: Global,
    length: usize,
    patches: &[Patch],
) -> Result<Answer, AllocError> {
    requests::<K>(heap, &BY_DATAGRAM, length, patches)
}

// Each case has the answer of its table, from a reader that is given the case's length and patches.
fn all_agree<F: Fn(Global, usize, &[Patch]) -> Result<Answer, AllocError>>(
    rt: &(impl Abort + AllocGlobal),
    cases: &[Case],
    reader: F,
) -> Result<(), Fail>
    requires { F.IsAlwaysCallable reader }
{
    for (name, length, patches, expected) in cases {
        assert_eq!(rt; reader(rt.alloc(), *length, patches)?, *expected, "{name}");
    }
    Ok(())
}

// Wrong in one way, alone or with one of those that follow: the answer to the first is given.
fn first_wins<F: Fn(Global, usize, &[Patch]) -> Result<Answer, AllocError>>(
    rt: &(impl Abort + AllocGlobal),
    wrongs: &[Wrong],
    shortest: usize,
    reader: F,
) -> Result<(), Fail>
    requires { F.IsAlwaysCallable reader }
{
    for (i, (first, expected)) in wrongs.iter().enumerate() {
        for (other, _) in wrongs.iter().skip(i) {
            let answer = reader(rt.alloc(), shortest, &[*first, *other])?;
            assert_eq!(rt; answer, *expected, "{first:?}, {other:?}");
        }
    }
    Ok(())
}

#[test]
fn sizes(rt: HostRuntime) -> Result<(), Fail> {
    all_agree(&rt, &SIZES, segments)?;
    all_agree(&rt, &SIZES, counts)?;
    all_agree(&rt, &REQUEST_SIZES, datagram_requests::<ByNumbers>)
}

#[test]
fn fields(rt: HostRuntime) -> Result<(), Fail> {
    all_agree(&rt, &FIELDS, segments)?;
    all_agree(&rt, &FIELDS, counts)?;
    all_agree(&rt, &REQUEST_FIELDS, datagram_requests::<ByNumbers>)
}

#[test]
fn pairs(rt: HostRuntime) -> Result<(), Fail> {
    first_wins(&rt, &WRONGS, 40, segments)?;
    first_wins(&rt, &WRONGS, 40, counts)?;
    first_wins(&rt, &REQUEST_WRONGS, 16, datagram_requests::<ByNumbers>)?;
    all_agree(&rt, &PAIRS, segments)?;
    all_agree(&rt, &PAIRS, counts)
}

#[test]
fn blocks(rt: HostRuntime) -> Result<(), Fail> {
    all_agree(&rt, &BLOCKS, segments)?;
    all_agree(&rt, &BLOCKS, counts)
}

#[test]
fn ranges(rt: HostRuntime) -> Result<(), Fail> {
    all_agree(&rt, &RANGES, datagram_requests::<ByNumbers>)?;
    all_agree(&rt, &BYTE_RANGES, datagram_requests::<ByBytes>)?;
    all_agree(&rt, &STREAM_REQUESTS, |heap, length, patches| {
        requests::<ByNumbers>(heap, &BY_STREAM_AFTER_9, length, patches)
    })
}

#[test]
fn example_request(rt: HostRuntime) -> Result<(), Fail> {
    let ranges = request::read::<ByNumbers>(&REQUEST, &BY_DATAGRAM)?;
    let ranges: Vec<Range> = ranges.collect(rt.alloc())?;
    assert_eq!(rt; ranges.as_slice(), REQUEST_RANGES.as_slice());
    assert_eq!(rt;
        request_answer::<ByNumbers>(&TEST_REQUEST, &BY_DATAGRAM),
        Ok(0)
    );
    Ok(())
}

#[test]
fn example_header(rt: HostRuntime) -> Result<(), Fail> {
    let segment = read(&SEGMENT, &EXPECTED)?;
    let header = segment.header;
    assert_eq!(rt; header.address.protocol, 0x8004);
    assert_eq!(rt; header.address.channel, 1);
    assert_eq!(rt; header.address.session, 0x4287_0000);
    assert_eq!(rt; header.offset, 2_205_324);
    assert_eq!(rt; header.first, 50_122);
    assert_eq!(rt; header.count, 2);
    // 2016-08-23 15:30:32.572839404 in New York, four hours behind UTC
    assert_eq!(rt; header.time, 1_471_980_632_572_839_404);
    Ok(())
}

#[test]
fn example_messages(rt: HostRuntime) -> Result<(), Fail> {
    let segment = read(&SEGMENT, &EXPECTED)?;
    let mut messages = segment.content.messages();
    let trade = messages.next().ok_or("no trade")?;
    let update = messages.next().ok_or("no update")?;
    assert!(rt; messages.next().is_none());
    assert_eq!(rt; trade.number, 50_122);
    assert_eq!(rt; trade.place, 2_205_324);
    assert_eq!(rt; trade.body, &SEGMENT[42..80]);
    assert_eq!(rt; update.number, 50_123);
    assert_eq!(rt; update.place, 2_205_364);
    assert_eq!(rt; update.body, &SEGMENT[82..112]);
    Ok(())
}

#[test]
fn heartbeat_and_any_session(rt: HostRuntime) -> Result<(), Fail> {
    let any = Expected {
        session: None,
        ..EXPECTED
    };
    let other = Expected {
        session: Some(0x4287_0001),
        ..EXPECTED
    };
    let mut heartbeat = SEGMENT;
    heartbeat[12] = 0;
    heartbeat[14] = 0;
    assert!(rt; read(&SEGMENT, &other).is_err());
    assert!(rt; matches!(read(&heartbeat[0..40], &any)?.content, Content::Heartbeat));
    Ok(())
}

#[test]
fn fault_text(rt: HostRuntime) -> Result<(), Fail> {
    let short = Refusal::ShortDatagram.at(39);
    let sink = Refusal::SinkRefused.at(0);
    let text = format!(in rt.alloc(); "{short}; {sink}")?;
    assert_eq!(rt;
        text.as_str(),
        "number 1, layer header, place 39; number 29, layer sink, place 0"
    );
    Ok(())
}
