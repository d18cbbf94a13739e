// The records of a capture, as parts of the bytes that hold them.
ghost use Rattle.std.specs.Prelude.{◌≡◌, length, Some, None, MatchOption};
ghost use Rattle.std.specs.Option.{option_map};
ghost use Rattle.capture.specs.Records.{first_record, cut_record, bytes_left, SplitsOneWay, SplitsInParts, SplitsOffTheEnd};
ghost use Rattle.std.specs.Iterator.{at_most};

// A cursor over the whole records in some bytes. It has no model, since a `Copy` struct with a lifetime can have none.
#[derive(Clone, Copy, Debug)]
pub struct Records<'a> {
    rest: &'a [u8],
}

impl<'a> Records<'a> {
    pub fn new(bytes: &'a [u8]) -> Records<'a>
        ensures { bytes_left result ≡ bytes.now }
    {
        Records { rest: bytes }
    }

    // What no record was taken from yet.
    pub fn rest(&self) -> &'a [u8]
        ensures { result.now ≡ bytes_left self.now }
    {
        self.rest
    }
}

// Hands out the whole records from the front on, and stops at one that is not all there.
impl<'a> Iterator for Records<'a> {
    type Item = &'a [u8];

    // std's words for the items that are left would not say which bytes are left.
    ghost next_gives = { λ s r t. MatchOption r ((first_record (bytes_left s) ≡ None) × (t ≡ s)) (λ x. first_record (bytes_left s) ≡ Some (x.now, bytes_left t)) };

    ghost remaining = { λ s. at_most (length (bytes_left s)) };

    fn next(&mut self) -> Option<&'a [u8]> {
        let (record, rest) = split_record(self.rest)?;
        self.rest = rest;
        Some(record)
    }
}

// The record at the front of `bytes`, and what follows it. Not the block reader of `wire`, which refuses what is longer than a message.
fn split_record(bytes: &[u8]) -> Option<(&[u8], &[u8])>
    ensures { option_map (λ p. (p.0.now, p.1.now)) result ≡ first_record bytes.now }
{
    let (length, rest) = bytes.split_first_chunk::<2>()?;
    rest.split_at_checked(usize::from(u16::from_le_bytes(*length)))
}

// The last record of a capture that ends in `bytes`, where it was cut.
pub fn cut_record(bytes: &[u8]) -> Option<&[u8]>
    ensures { option_map (λ x. x.now) result ≡ cut_record bytes.now }
{
    let (_, rest) = bytes.split_first_chunk::<2>()?;
    Some(rest)
}

// Proves how captures split into records; it does nothing.
pub fn record_laws()
    ensures one_way { SplitsOneWay }
    ensures in_parts { SplitsInParts }
    ensures off_the_end { SplitsOffTheEnd }
{}
