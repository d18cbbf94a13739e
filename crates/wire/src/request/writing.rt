// Writing a gap fill request into a buffer.
ghost use Rattle.std.specs.Prelude.{◌≡◌, ◌+◌, ◌*◌, ◌≤◌, not, length, take, IfOk};
ghost use Rattle.wire.specs.Buffers.{left_by};
ghost use Rattle.wire.specs.Fields.{overwritten};
ghost use Rattle.wire.specs.RequestWriting.{request_header_bytes, range_bytes, ranges_bytes, request_bytes, ranges_past_limits, write_request, RequestReadsAs, RequestWrittenAsRead};
ghost use Rattle.wire.specs.RoundTrip.{FitsAddress};

use crate::address::Address;
use crate::fault::{Fault, Refusal};
use crate::field::{put, put_field};
use crate::limits::VERSION;
use crate::request::ranges::check_ranges;
use crate::request::{MAX_RANGES, RANGE_LEN, REQUEST_HEADER_LEN, Range, RangeKind};

// Whether a reader would accept a request for these ranges. A test, and no `Result`: the fault that a writer gives is another one.
fn within_limits<K: RangeKind>(ranges: &[Range]) -> bool
    ensures { result ≡ not (ranges_past_limits K.kind ranges.now) }
{
    ranges.len() <= MAX_RANGES && check_ranges::<K, Range>(ranges, None).is_ok()
}

fn put_request_header<K: RangeKind>(out: &mut [u8], address: &Address, count: u32)
    requires { 16 ≤ length out.old }
    ensures fits { FitsAddress address.now }
    ensures after { out.new ≡ overwritten out.old 0 (request_header_bytes K.kind address.now count) }
{
    put(out, 0, &[VERSION, K::TYPE]);
    address.put(out);
    put_field(out, 12, count);
}

fn put_range(out: &mut [u8], at: usize, range: Range)
    requires { at + 16 ≤ length out.old }
    ensures { out.new ≡ overwritten out.old at (range_bytes range) }
{
    put_field(out, at, range.first);
    put_field(out, at + 8, range.last);
}

// Writes the ranges behind the header. By places and not by `as_chunks_mut`, of which nothing is known once its parts are written.
fn put_ranges(out: &mut [u8], ranges: &[Range])
    requires { 16 + 16 * length ranges.now ≤ length out.old }
    ensures { out.new ≡ overwritten out.old 16 (ranges_bytes ranges.now) }
{
    for (i, range) in ranges.iter().enumerate() {
        put_range(out, REQUEST_HEADER_LEN + RANGE_LEN * i, *range);
    }
}

// Writes a request for these ranges into the front of `out`, and answers how many bytes it has. More than 64 ranges, or such as no
// reader would accept, are refused, and so is a request for which there is no room; nothing is then written.
pub fn write<K: RangeKind>(
    out: &mut [u8],
    address: &Address,
    ranges: &[Range],
) -> Result<usize, Fault>
    ensures value { result ≡ write_request K.kind ranges.now out.old }
    ensures after { out.new ≡ left_by result (request_bytes K.kind address.now ranges.now) out.old }
    ensures reads_back { IfOk result (λ n. RequestReadsAs K.kind (take n out.new) address.now ranges.now) }
    ensures as_read { RequestWrittenAsRead K.kind address.now ranges.now out.old out.new result }
{
    if !within_limits::<K>(ranges) {
        return Err(Refusal::SettingOutOfRange.at(0));
    }
    let end = REQUEST_HEADER_LEN + RANGE_LEN * ranges.len();
    if out.len() < end {
        return Err(Refusal::ShortBuffer.at(0));
    }
    put_request_header::<K>(out, address, ranges.len() as u32);
    put_ranges(out, ranges);
    Ok(end)
}
