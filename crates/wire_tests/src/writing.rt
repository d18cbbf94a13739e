// What the writers answer and leave.
use crate::cases::{Answer, number_and_place};
use crate::example::{REQUEST, REQUEST_RANGES, SEGMENT, TEST_REQUEST};
use crate::tests::{ADDRESS, BY_DATAGRAM, EXPECTED};
use std::array;
use std::test::Fail;
use wire::limits::LONG_MAX;
use wire::request;
use wire::request::{ByBytes, ByNumbers, Range, RangeKind};
use wire::segment::{Content, Header, read, write};

const HEADER: Header = Header {
    address: ADDRESS,
    offset: 0,
    first: 1,
    count: 0,
    time: 0,
};

// What the writer of segments answers.
fn written(out: &mut [u8], header: &Header, bodies: &[&[u8]]) -> Answer {
    write(out, header, &bodies).map_err(number_and_place)
}

// What the writer of requests answers.
fn requested<K: RangeKind>(out: &mut [u8], ranges: &[Range]) -> Answer {
    request::write::<K>(out, &ADDRESS, ranges).map_err(number_and_place)
}

// The example segment, read with another reserved byte and written again; what stands behind it stays.
#[test]
fn segment_written_again(rt: HostRuntime) -> Result<(), Fail> {
    let mut datagram = SEGMENT;
    datagram[1] = 7;
    let segment = read(&datagram, &EXPECTED)?;
    let mut messages = segment.content.messages();
    let trade = messages.next().ok_or("no trade")?;
    let update = messages.next().ok_or("no update")?;
    let bodies = [trade.body, update.body];
    let mut out = [0xee; 115];
    assert_eq!(rt; written(&mut out, &segment.header, &bodies), Ok(112));
    assert_eq!(rt; &out[0..112], &SEGMENT[0..112]);
    assert_eq!(rt; &out[112..115], [0xee; 3].as_slice());
    let mut short = [0xee; 111];
    assert_eq!(rt; written(&mut short, &segment.header, &bodies), Err((24, 0)));
    assert_eq!(rt; &short[0..111], [0xee; 111].as_slice());
    Ok(())
}

#[test]
fn heartbeat_written(rt: HostRuntime) -> Result<(), Fail> {
    let mut out = [0xee; 41];
    assert_eq!(rt; written(&mut out[0..39], &HEADER, &[]), Err((24, 0)));
    assert_eq!(rt; &out[0..41], [0xee; 41].as_slice());
    assert_eq!(rt; written(&mut out, &HEADER, &[]), Ok(40));
    assert_eq!(rt; out[40], 0xee);
    assert!(rt; matches!(read(&out[0..40], &EXPECTED)?.content, Content::Heartbeat));
    Ok(())
}

// A header with other numbers than `HEADER`.
fn numbered(count: u16, first: u64, offset: u64) -> Header {
    Header {
        count,
        first,
        offset,
        ..HEADER
    }
}

// Numbers and places at their limits, and past them.
#[test]
fn segment_numbers(rt: HostRuntime) {
    let none: &[&[u8]] = &[];
    let one: &[&[u8]] = &[b""];
    let mut out = [0; 42];
    for (count, first, offset, bodies, answer) in [
        (1, 1, 0, none, Err((23, 0))),
        (0, 1, 0, one, Err((23, 0))),
        (1, 1, 0, one, Ok(42)),
        (0, 0, 0, none, Err((23, 0))),
        (0, LONG_MAX, 0, none, Ok(40)),
        (1, LONG_MAX, 0, one, Err((23, 0))),
        (1, LONG_MAX - 1, 0, one, Ok(42)),
        (0, 1, LONG_MAX, none, Ok(40)),
        (1, 1, LONG_MAX - 1, one, Err((23, 0))),
        (1, 1, LONG_MAX - 2, one, Ok(42)),
    ] {
        let header = numbered(count, first, offset);
        assert_eq!(rt;
            written(&mut out, &header, bodies),
            answer,
            "{count}, {first}, {offset}"
        );
    }
}

// Messages at their limits, and past them. What is past them is refused before the buffer's length is looked at.
#[test]
fn segment_sizes(rt: HostRuntime) -> Result<(), Fail> {
    let data = [0x55; 1431];
    let mut out = vec![in rt.alloc(); 0u8; 65535]?;
    let one = numbered(1, 1, 0);
    assert_eq!(rt; written(&mut out, &one, &[&data[0..1430]]), Ok(1472));
    assert_eq!(rt; written(&mut [], &one, &[&data]), Err((23, 0)));
    let full = numbered(46, 1, 0);
    let mut bodies = [&data[0..1430]; 46];
    bodies[45] = &data[0..1053];
    assert_eq!(rt; written(&mut out, &full, &bodies), Ok(65535));
    bodies[45] = &data[0..1054];
    assert_eq!(rt; written(&mut out, &full, &bodies), Err((23, 0)));
    Ok(())
}

// The examples; what stands behind a request stays.
#[test]
fn request_written(rt: HostRuntime) {
    let mut out = [0xee; 50];
    assert_eq!(rt;
        requested::<ByNumbers>(&mut out[0..47], &REQUEST_RANGES),
        Err((24, 0))
    );
    assert_eq!(rt; &out[0..50], [0xee; 50].as_slice());
    assert_eq!(rt; requested::<ByNumbers>(&mut out, &REQUEST_RANGES), Ok(48));
    assert_eq!(rt; &out[0..48], &REQUEST[0..48]);
    assert_eq!(rt; &out[48..50], [0xee; 2].as_slice());
    assert_eq!(rt; requested::<ByNumbers>(&mut out, &[]), Ok(16));
    assert_eq!(rt; &out[0..16], &TEST_REQUEST[0..16]);
}

// 1 to 2, 4 to 5, 7 to 8 and so on.
fn spaced_ranges() -> [Range; 65] {
    array::from_fn(|i| Range {
        first: 3 * i as u64 + 1,
        last: 3 * i as u64 + 2,
    })
}

// 64 ranges are written and read back, and 65 are refused.
#[test]
fn many_ranges(rt: HostRuntime) -> Result<(), Fail> {
    let ranges = spaced_ranges();
    let mut out = [0; 1056];
    assert_eq!(rt; requested::<ByNumbers>(&mut out, &ranges), Err((23, 0)));
    assert_eq!(rt; requested::<ByNumbers>(&mut out, &ranges[0..64]), Ok(1040));
    let read = request::read::<ByNumbers>(&out[0..1040], &BY_DATAGRAM)?;
    let read: Vec<Range> = read.collect(rt.alloc())?;
    assert_eq!(rt; read.as_slice(), &ranges[0..64]);
    assert_eq!(rt;
        ranges[63],
        Range {
            first: 190,
            last: 191
        }
    );
    Ok(())
}

// Ranges that no reader would accept are refused before the buffer's length is looked at.
#[test]
fn unordered_ranges(rt: HostRuntime) {
    let meet = [Range { first: 5, last: 9 }, Range { first: 9, last: 12 }];
    let apart = [
        Range { first: 5, last: 9 },
        Range {
            first: 10,
            last: 12,
        },
    ];
    let zero = [Range { first: 0, last: 1 }];
    let back = [Range { first: 5, last: 4 }];
    let mut out = [0; 48];
    assert_eq!(rt; requested::<ByNumbers>(&mut [], &meet), Err((23, 0)));
    assert_eq!(rt; requested::<ByNumbers>(&mut out, &apart), Ok(48));
    assert_eq!(rt; requested::<ByNumbers>(&mut out, &zero), Err((23, 0)));
    assert_eq!(rt; requested::<ByBytes>(&mut out, &zero), Ok(32));
    assert_eq!(rt; requested::<ByBytes>(&mut out, &back), Err((23, 0)));
}
