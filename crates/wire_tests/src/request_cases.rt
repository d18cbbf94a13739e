// Tables of cases for the request reader. Each answer was worked out by hand from `docs/PROTOCOL.md` and `docs/REFUSALS.md`.
use crate::cases::{Case, LEAST, MAX, MINUS_1, Wrong};

// Requests by numbers to a datagram server, nothing requested before.
pub const REQUEST_SIZES: [Case; 8] = [
    ("no bytes", 0, &[], Err((12, 0))),
    ("15 bytes", 15, &[], Err((12, 15))),
    ("16 bytes, no range", 16, &[], Ok(0)),
    ("17 bytes, no range", 17, &[], Err((19, 17))),
    ("31 bytes for a range", 31, &[(12, &[1])], Err((19, 31))),
    ("32 bytes, a range", 32, &[(16, &[1]), (24, &[1])], Ok(1)),
    (
        "33 bytes for a range",
        33,
        &[(16, &[1]), (24, &[1])],
        Err((19, 33)),
    ),
    ("32 bytes for no range", 32, &[(12, &[0])], Err((19, 32))),
];

// One field of the header at its edge, or past it.
pub const REQUEST_FIELDS: [Case; 14] = [
    ("version 0", 16, &[(0, &[0])], Err((13, 0))),
    ("version 2", 16, &[(0, &[2])], Err((13, 0))),
    ("type 0", 16, &[(1, &[0])], Err((14, 1))),
    ("type 2", 16, &[(1, &[2])], Err((14, 1))),
    ("protocol 0x8005", 16, &[(2, &[5])], Err((15, 2))),
    ("protocol 0x0004", 16, &[(3, &[0])], Err((15, 2))),
    ("channel 0", 16, &[(4, &[0])], Err((16, 4))),
    ("channel 0x01000001", 16, &[(7, &[1])], Err((16, 4))),
    ("session 0x42870001", 16, &[(8, &[1])], Err((17, 8))),
    ("session 0x43870000", 16, &[(11, &[0x43])], Err((17, 8))),
    ("65 ranges", 1056, &[], Err((18, 12))),
    (
        "64 ranges, and one missing",
        1024,
        &[(12, &[64])],
        Err((19, 1024)),
    ),
    ("256 ranges", 16, &[(13, &[1])], Err((18, 12))),
    ("2^31 ranges", 16, &[(15, &[128])], Err((18, 12))),
];

// One for each refusal of the header past its size, in the order in which they are given.
pub const REQUEST_WRONGS: [Wrong; 7] = [
    ((0, &[2]), Err((13, 0))),
    ((1, &[2]), Err((14, 1))),
    ((2, &[5]), Err((15, 2))),
    ((4, &[2]), Err((16, 4))),
    ((8, &[1]), Err((17, 8))),
    ((13, &[1]), Err((18, 12))),
    ((12, &[1]), Err((19, 16))),
];

// Ranges at their edges, and past them.
pub const RANGES: [Case; 18] = [
    ("1 to 1", 32, &[(16, &[1]), (24, &[1])], Ok(1)),
    ("0 to 1", 32, &[(24, &[1])], Err((20, 16))),
    ("0 to 0", 32, &[], Err((20, 16))),
    ("1 to Z", 32, &[(16, &[1]), (24, MAX)], Ok(1)),
    ("Z to Z", 32, &[(16, MAX), (24, MAX)], Ok(1)),
    ("5 to 4", 32, &[(16, &[5]), (24, &[4])], Err((20, 16))),
    ("256 to 255", 32, &[(17, &[1]), (24, &[255])], Err((20, 16))),
    ("-1 to 5", 32, &[(16, MINUS_1), (24, &[5])], Err((20, 16))),
    ("5 to -1", 32, &[(16, &[5]), (24, MINUS_1)], Err((20, 16))),
    (
        "-1 to -1",
        32,
        &[(16, MINUS_1), (24, MINUS_1)],
        Err((20, 16)),
    ),
    (
        "the least Long to 5",
        32,
        &[(16, LEAST), (24, &[5])],
        Err((20, 16)),
    ),
    (
        "the least Long to -1",
        32,
        &[(16, LEAST), (24, MINUS_1)],
        Err((20, 16)),
    ),
    (
        "5 to 9 and 9 to 12",
        48,
        &[(16, &[5]), (24, &[9]), (32, &[9]), (40, &[12])],
        Err((21, 32)),
    ),
    (
        "5 to 9 and 10 to 12",
        48,
        &[(16, &[5]), (24, &[9]), (32, &[10]), (40, &[12])],
        Ok(2),
    ),
    (
        "5 to 9 and 6 to 7",
        48,
        &[(16, &[5]), (24, &[9]), (32, &[6]), (40, &[7])],
        Err((21, 32)),
    ),
    (
        "5 to 9 and 9 to 8",
        48,
        &[(16, &[5]), (24, &[9]), (32, &[9]), (40, &[8])],
        Err((20, 32)),
    ),
    (
        "5 to 4 and 3 to 3",
        48,
        &[(16, &[5]), (24, &[4]), (32, &[3]), (40, &[3])],
        Err((20, 16)),
    ),
    (
        "1 to 1, 2 to 2 and 2 to 3",
        64,
        &[
            (16, &[1]),
            (24, &[1]),
            (32, &[2]),
            (40, &[2]),
            (48, &[2]),
            (56, &[3]),
        ],
        Err((21, 48)),
    ),
];

// Ranges of bytes: the lowest value is 0.
pub const BYTE_RANGES: [Case; 5] = [
    ("type 1", 16, &[], Err((14, 1))),
    ("0 to 0", 32, &[(1, &[2])], Ok(1)),
    ("0 to Z", 32, &[(1, &[2]), (24, MAX)], Ok(1)),
    ("-1 to 0", 32, &[(1, &[2]), (16, MINUS_1)], Err((20, 16))),
    (
        "0 to 0 and 0 to 1",
        48,
        &[(1, &[2]), (40, &[1])],
        Err((21, 32)),
    ),
];

// Requests on a stream, where 9 was requested before.
pub const STREAM_REQUESTS: [Case; 6] = [
    ("no range", 16, &[], Err((18, 12))),
    ("9 to 12", 32, &[(16, &[9]), (24, &[12])], Err((21, 16))),
    ("10 to 12", 32, &[(16, &[10]), (24, &[12])], Ok(1)),
    ("1 to 12", 32, &[(16, &[1]), (24, &[12])], Err((21, 16))),
    ("9 to 8", 32, &[(16, &[9]), (24, &[8])], Err((20, 16))),
    (
        "9 to 12 and 5 to 4",
        48,
        &[(16, &[9]), (24, &[12]), (32, &[5]), (40, &[4])],
        Err((21, 16)),
    ),
];
