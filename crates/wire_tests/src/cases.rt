// Tables of cases for the segment reader. Each answer was worked out by hand from `docs/PROTOCOL.md` and `docs/REFUSALS.md`.
use wire::fault::Fault;

// What a reader or a writer is to answer: how many messages, ranges or bytes, or a refusal's number and place.
pub type Answer = Result<usize, (u8, u64)>;

// A refusal as installers know it: its number, and the place.
pub fn number_and_place(fault: Fault) -> (u8, u64) {
    (fault.refusal.number(), fault.place)
}

// A place, and the bytes that are written there.
pub type Patch<'a> = (usize, &'a [u8]);

// A name; the length of a datagram or a request; patches; the answer. The header names version 1, protocol 0x8004, channel 1 and
// session 0x42870000. That of a datagram names the payload's true length and number 1; that of a request names type 1 and as many
// ranges as there is room for. All else is 0 but for the patches.
pub type Case = (&'static str, usize, &'static [Patch<'static>], Answer);

// Longs: the largest, some below it, -1 and the least.
pub const MAX: &[u8] = &[255, 255, 255, 255, 255, 255, 255, 127];

const MAX_LESS_1: &[u8] = &[254, 255, 255, 255, 255, 255, 255, 127];

const MAX_LESS_2: &[u8] = &[253, 255, 255, 255, 255, 255, 255, 127];

pub const MINUS_1: &[u8] = &[255, 255, 255, 255, 255, 255, 255, 255];

pub const LEAST: &[u8] = &[0, 0, 0, 0, 0, 0, 0, 128];

// The datagram's size.
pub const SIZES: [Case; 5] = [
    ("no bytes", 0, &[], Err((1, 0))),
    ("39 bytes", 39, &[], Err((1, 39))),
    ("40 bytes, a heartbeat", 40, &[], Ok(0)),
    (
        "65,535 bytes",
        65535,
        &[(14, &[0xeb, 0x7f]), (40, &[1])],
        Ok(32747),
    ),
    ("65,536 bytes", 65536, &[], Err((2, 65535))),
];

// One field of the header at its edge, or past it.
pub const FIELDS: [Case; 26] = [
    ("version 0", 40, &[(0, &[0])], Err((3, 0))),
    ("version 2", 40, &[(0, &[2])], Err((3, 0))),
    ("any reserved byte", 40, &[(1, &[255])], Ok(0)),
    ("protocol 0x8005", 40, &[(2, &[5])], Err((4, 2))),
    ("protocol 0x0004", 40, &[(3, &[0])], Err((4, 2))),
    ("channel 0", 40, &[(4, &[0])], Err((5, 4))),
    ("channel 0x01000001", 40, &[(7, &[1])], Err((5, 4))),
    ("session 0x42870001", 40, &[(8, &[1])], Err((6, 8))),
    ("session 0x43870000", 40, &[(11, &[0x43])], Err((6, 8))),
    (
        "payload length one more",
        42,
        &[(12, &[3]), (14, &[1])],
        Err((7, 12)),
    ),
    (
        "payload length one less",
        42,
        &[(12, &[1]), (14, &[1])],
        Err((7, 12)),
    ),
    (
        "payload length 256 more",
        42,
        &[(13, &[1]), (14, &[1])],
        Err((7, 12)),
    ),
    ("number 0", 40, &[(24, &[0])], Err((8, 24))),
    ("number -1", 40, &[(24, MINUS_1)], Err((8, 24))),
    ("the least Long as number", 40, &[(24, LEAST)], Err((8, 24))),
    ("number Z, no block", 40, &[(24, MAX)], Ok(0)),
    (
        "number Z, one block",
        42,
        &[(14, &[1]), (24, MAX)],
        Err((8, 24)),
    ),
    (
        "number Z - 1, one block",
        42,
        &[(14, &[1]), (24, MAX_LESS_1)],
        Ok(1),
    ),
    (
        "number Z - 1, two blocks",
        44,
        &[(14, &[2]), (24, MAX_LESS_1)],
        Err((8, 24)),
    ),
    ("offset -1", 40, &[(16, MINUS_1)], Err((8, 16))),
    ("the least Long as offset", 40, &[(16, LEAST)], Err((8, 16))),
    ("offset Z, no payload", 40, &[(16, MAX)], Ok(0)),
    (
        "offset Z, payload 2",
        42,
        &[(14, &[1]), (16, MAX)],
        Err((8, 16)),
    ),
    (
        "offset Z - 2, payload 2",
        42,
        &[(14, &[1]), (16, MAX_LESS_2)],
        Ok(1),
    ),
    (
        "offset Z - 2, payload 3",
        43,
        &[(14, &[1]), (16, MAX_LESS_2), (40, &[1])],
        Err((8, 16)),
    ),
    ("the least Long as send time", 40, &[(32, LEAST)], Ok(0)),
];

// A patch that makes a heartbeat, or a request with no ranges, wrong in one way, and the answer to it.
pub type Wrong = (Patch<'static>, Answer);

// One for each refusal of the header past its size, in the order in which they are given.
pub const WRONGS: [Wrong; 7] = [
    ((0, &[2]), Err((3, 0))),
    ((2, &[5]), Err((4, 2))),
    ((4, &[2]), Err((5, 4))),
    ((8, &[1]), Err((6, 8))),
    ((12, &[1]), Err((7, 12))),
    ((24, &[0]), Err((8, 24))),
    ((16, MINUS_1), Err((8, 16))),
];

// Two things wrong, of which one is the size or a block.
pub const PAIRS: [Case; 4] = [
    ("short and version", 39, &[(0, &[2])], Err((1, 39))),
    ("long and version", 65536, &[(0, &[2])], Err((2, 65535))),
    ("offset and blocks", 41, &[(16, MAX)], Err((8, 16))),
    ("number and blocks", 41, &[(24, &[0])], Err((8, 24))),
];

// Blocks at their edges, and past them.
pub const BLOCKS: [Case; 18] = [
    ("length 0", 42, &[(14, &[1])], Ok(1)),
    ("length 1", 43, &[(14, &[1]), (40, &[1])], Ok(1)),
    ("length 1,430", 1472, &[(14, &[1]), (40, &[0x96, 5])], Ok(1)),
    (
        "length 1,431",
        1473,
        &[(14, &[1]), (40, &[0x97, 5])],
        Err((10, 40)),
    ),
    (
        "length 65,535",
        42,
        &[(14, &[1]), (40, &[255, 255])],
        Err((10, 40)),
    ),
    (
        "length 1,431, its data one byte short",
        1472,
        &[(14, &[1]), (40, &[0x97, 5])],
        Err((10, 40)),
    ),
    (
        "length 1,430, its data one byte short",
        1471,
        &[(14, &[1]), (40, &[0x96, 5])],
        Err((9, 40)),
    ),
    (
        "no data for length 1",
        42,
        &[(14, &[1]), (40, &[1])],
        Err((9, 40)),
    ),
    (
        "the second block's data one byte short",
        46,
        &[(14, &[2]), (40, &[1]), (43, &[2])],
        Err((9, 43)),
    ),
    (
        "the second block too long",
        46,
        &[(14, &[2]), (40, &[1]), (43, &[0x97, 5])],
        Err((10, 43)),
    ),
    (
        "the first block's data short, the second too long",
        46,
        &[(14, &[2]), (40, &[5]), (43, &[0x97, 5])],
        Err((9, 40)),
    ),
    (
        "one byte of a length",
        44,
        &[(14, &[2]), (40, &[1])],
        Err((9, 43)),
    ),
    (
        "one byte left over",
        44,
        &[(14, &[1]), (40, &[1])],
        Err((9, 43)),
    ),
    (
        "count one above the blocks",
        45,
        &[(14, &[3]), (40, &[1])],
        Err((9, 45)),
    ),
    (
        "count one below the blocks",
        45,
        &[(14, &[1]), (40, &[1])],
        Err((9, 43)),
    ),
    ("count 0 with a payload", 42, &[], Err((9, 40))),
    ("count 1 with no payload", 40, &[(14, &[1])], Err((9, 40))),
    ("count 256 for one block", 42, &[(15, &[1])], Err((9, 42))),
];
