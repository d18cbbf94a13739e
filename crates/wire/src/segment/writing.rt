// Writing a segment into a buffer.
ghost use Rattle.std.specs.Prelude.{◌≡◌, ℕ, ◌+◌, ◌<◌, ◌≤◌, false, List, map, length, take, IfOk, slice_get};
ghost use Rattle.std.specs.Option.{option_map};
ghost use Rattle.wire.specs.Buffers.{left_by};
ghost use Rattle.wire.specs.Fields.{overwritten};
ghost use Rattle.wire.specs.RoundTrip.{FitsHeader, ReadsAs, WrittenAsRead};
ghost use Rattle.wire.specs.Sessions.{span};
ghost use Rattle.wire.specs.Writing.{header_bytes, block_bytes, payload_bytes, segment_bytes, segment_with, too_large, measured, checked_limits, write_segment, copied, copied_from, body_at};

use crate::fault::{Fault, Refusal};
use crate::field::{put, put_field};
use crate::limits::{LONG_MAX, MAX_MESSAGE, MAX_PAYLOAD, VERSION};
use crate::segment::{HEADER_LEN, Header};

// The data of messages in a row, wherever it is kept: each is copied straight into the buffer of a segment.
pub trait Bodies {
    // the data of each message, in order
    ghost messages: { Self → List (List ℕ) };

    // How many messages there are.
    fn count(&self) -> usize
        ensures { result ≡ length (messages self.now) };

    // The length of message `index`, counted from 0.
    fn size(&self, index: usize) -> Option<usize>
        ensures { result ≡ option_map length (slice_get (messages self.now) index) };

    // Copies message `index` over the front of `out`, where it fits, and answers its length.
    fn copy(&self, index: usize, out: &mut [u8]) -> Option<usize>
        ensures value { result ≡ option_map length (slice_get (messages self.now) index) }
        ensures after { out.new ≡ copied_from (slice_get (messages self.now) index) out.old };
}

// Copies the data of a message over the front of `out`, where it fits.
fn copy_body(body: &[u8], out: &mut [u8])
    ensures { out.new ≡ copied body.now out.old }
{
    if body.len() <= out.len() {
        put(out, 0, body);
    }
}

// Messages that are slices.
impl<'a, 'b> Bodies for &'a [&'b [u8]] {
    ghost messages = { λ s. map (λ x. x.now) s.now };

    fn count(&self) -> usize {
        self.len()
    }

    fn size(&self, index: usize) -> Option<usize> {
        let body = self.get(index)?;
        Some(body.len())
    }

    fn copy(&self, index: usize, out: &mut [u8]) -> Option<usize> {
        let body = self.get(index)?;
        copy_body(body, out);
        Some(body.len())
    }
}

fn put_header(out: &mut [u8], header: &Header, payload: u16)
    requires { 40 ≤ length out.old }
    ensures fits { FitsHeader header.now }
    ensures after { out.new ≡ overwritten out.old 0 (header_bytes header.now payload) }
{
    put(out, 0, &[VERSION, 0]);
    header.address.put(out);
    put_field(out, 12, payload);
    put_field(out, 14, header.count);
    put_field(out, 16, header.offset);
    put_field(out, 24, header.first);
    put_field(out, 32, header.time.cast_unsigned());
}

// Writes the block of message `index` at `at`, and answers where it ends. Nothing is asked of the number: without a message the block
// is empty.
fn put_block<B: Bodies>(out: &mut [u8], at: usize, bodies: &B, index: usize) -> usize
    requires short { length (body_at (B.messages bodies.now) index) < 65536 }
    requires room { at + (2 + length (body_at (B.messages bodies.now) index)) ≤ length out.old }
    ensures value { result ≡ at + (2 + length (body_at (B.messages bodies.now) index)) }
    ensures after { out.new ≡ overwritten out.old at (block_bytes (body_at (B.messages bodies.now) index)) }
{
    let size = bodies.copy(index, &mut out[at + 2..]).unwrap_or(0);
    put_field(out, at, size as u16);
    at + 2 + size
}

// Writes the blocks of all messages behind the header.
// The loop goes over numbers, since messages are handed out by number; a `fold` over the same numbers would be no plainer.
fn put_blocks<B: Bodies>(out: &mut [u8], bodies: &B)
    requires carried { too_large (B.messages bodies.now) ≡ false }
    requires room { 40 + span (B.messages bodies.now) ≤ length out.old }
    ensures { out.new ≡ overwritten out.old 40 (payload_bytes (B.messages bodies.now)) }
{
    let mut at = HEADER_LEN;
    for index in 0..bodies.count() {
        at = put_block(out, at, bodies, index);
    }
}

// The length of the payload, where a datagram can carry the messages. The loop goes over numbers for the same reason.
fn measure<B: Bodies>(bodies: &B) -> Option<u16>
    ensures { result ≡ measured (B.messages bodies.now) }
{
    let mut payload = 0;
    for index in 0..bodies.count() {
        let size = bodies.size(index).unwrap();
        if size > MAX_MESSAGE {
            return None;
        }
        payload += 2 + size;
        if payload > MAX_PAYLOAD {
            return None;
        }
    }
    Some(payload as u16)
}

// The length of the payload of a segment within the limits.
fn check_limits<B: Bodies>(header: &Header, bodies: &B) -> Result<u16, Fault>
    ensures { result ≡ checked_limits (segment_with header.now (B.messages bodies.now)) }
{
    let count = header.count;
    if bodies.count() != usize::from(count)
        || header.first < 1
        || header.first > LONG_MAX - u64::from(count)
    {
        return Err(Refusal::SettingOutOfRange.at(0));
    }
    match measure(bodies) {
        Some(payload) if header.offset <= LONG_MAX - u64::from(payload) => Ok(payload),
        _ => Err(Refusal::SettingOutOfRange.at(0)),
    }
}

// Writes a segment with this header and these messages into the front of `out`, and answers how many bytes it has.
// A segment past the limits, which no reader would accept, is refused, and so is one for which there is no room; nothing is then written.
pub fn write<B: Bodies>(out: &mut [u8], header: &Header, bodies: &B) -> Result<usize, Fault>
    ensures value { result ≡ write_segment (segment_with header.now (B.messages bodies.now)) out.old }
    ensures after { out.new ≡ left_by result (segment_bytes (segment_with header.now (B.messages bodies.now))) out.old }
    ensures reads_back { IfOk result (λ n. ReadsAs (take n out.new) (segment_with header.now (B.messages bodies.now))) }
    ensures as_read { WrittenAsRead (segment_with header.now (B.messages bodies.now)) out.old out.new result }
{
    let payload = check_limits(header, bodies)?;
    let end = HEADER_LEN + usize::from(payload);
    if out.len() < end {
        return Err(Refusal::ShortBuffer.at(0));
    }
    put_header(out, header, payload);
    put_blocks(out, bodies);
    Ok(end)
}
