// The ranges of a request: which are valid, and a cursor over those that were read.
ghost use Rattle.std.specs.Prelude.{◌≡◌, ◌≤◌, map, length, Ok, IfNone};
ghost use Rattle.std.specs.Iterator.{YieldsFirst, item_count};
ghost use Rattle.wire.specs.declared.request.Range.{Range};
ghost use Rattle.wire.specs.Outcomes.{first_fault};
ghost use Rattle.wire.specs.Requests.{range_of, range_checks, checked_ranges, unread_ranges};

use crate::fault::{Fault, Refusal};
use crate::field::field_at;
use crate::limits::LONG_MAX;
use crate::request::{RANGE_LEN, REQUEST_HEADER_LEN, Range, RangeKind};

// A range, or the bytes of one.
pub(crate) trait AsRange {
    // the range
    ghost range: { Self → Range };

    fn range(&self) -> Range
        ensures { result ≡ range self.now };
}

impl AsRange for Range {
    ghost range = { λ r. r };

    fn range(&self) -> Range {
        *self
    }
}

// The range that 16 bytes of a request name.
impl AsRange for [u8; RANGE_LEN] {
    ghost range = { range_of };

    fn range(&self) -> Range {
        Range {
            first: field_at(self, 0),
            last: field_at(self, 8),
        }
    }
}

// Whether a range is valid and begins above `after`, where that is a value. A fault is found at `place`.
fn check_range<K: RangeKind>(range: Range, place: u64, after: Option<u64>) -> Result<(), Fault>
    ensures { result ≡ first_fault (range_checks K.kind after place range) (Ok tt) }
{
    if range.first < K::LOWEST || range.last < range.first || range.last > LONG_MAX {
        return Err(Refusal::InvalidRange.at(place));
    }
    match after {
        Some(value) if range.first <= value => Err(Refusal::RangesNotAscending.at(place)),
        _ => Ok(()),
    }
}

// Whether the ranges of a request are valid and ascend, the first from above `after`, where that is a value.
pub(crate) fn check_ranges<K: RangeKind, R: AsRange>(
    ranges: &[R],
    after: Option<u64>,
) -> Result<(), Fault>
    requires { length ranges.now ≤ 64 }
    ensures { result ≡ checked_ranges K.kind after 16 (map R.range ranges.now) }
{
    let mut after = after;
    for (i, range) in ranges.iter().enumerate() {
        let range = range.range();
        let place = REQUEST_HEADER_LEN + RANGE_LEN * i;
        check_range::<K>(range, place as u64, after)?;
        after = Some(range.last);
    }
    Ok(())
}

// The ranges of a request that are still to be handed out. It has no model, since a `Copy` struct with a lifetime can have none.
#[derive(Clone, Copy, Debug)]
pub struct Ranges<'a> {
    // the bytes of each, a part of the request
    rest: &'a [[u8; RANGE_LEN]],
}

impl<'a> Ranges<'a> {
    pub(crate) fn new(rest: &'a [[u8; RANGE_LEN]]) -> Ranges<'a>
        ensures { result.rest.now ≡ rest.now }
    {
        Ranges { rest }
    }
}

// Hands out one range after another; where `next` answers `None`, none is left.
impl<'a> Iterator for Ranges<'a> {
    type Item = Range;

    ghost next_gives = { λ s r t. YieldsFirst unread_ranges s r t × IfNone r (t ≡ s) };

    ghost remaining = { item_count unread_ranges };

    fn next(&mut self) -> Option<Range> {
        let (first, rest) = self.rest.split_first()?;
        self.rest = rest;
        Some(first.range())
    }
}
