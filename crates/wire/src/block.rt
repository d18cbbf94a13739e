// A block: a length of two bytes, then that many bytes of data.
ghost use Rattle.std.specs.Prelude.{◌≡◌, ◌+◌, ◌^◌, ◌<◌, length};
ghost use Rattle.wire.specs.Blocks.{first_block, checked_blocks};
ghost use Rattle.wire.specs.Outcomes.{map_ok};

use crate::fault::{Fault, Refusal};
use crate::limits::MAX_MESSAGE;

// The data of the block at the front of `bytes`, and what follows the block. A fault is found at `place`, where `bytes` begin.
pub fn first_block(bytes: &[u8], place: u64) -> Result<(&[u8], &[u8]), Fault>
    ensures { map_ok (λ p. (p.0.now, p.1.now)) result ≡ first_block place bytes.now }
{
    let short = Refusal::BlocksDisagree.at(place);
    let (length, rest) = bytes.split_first_chunk().ok_or(short)?;
    let length = usize::from(u16::from_le_bytes(*length));
    if length > MAX_MESSAGE {
        return Err(Refusal::LongBlock.at(place));
    }
    rest.split_at_checked(length).ok_or(short)
}

// Whether `bytes`, which begin at `place`, are `count` blocks and nothing more.
pub(crate) fn check_blocks(count: u16, place: u64, bytes: &[u8]) -> Result<(), Fault>
    requires { place + length bytes.now < 2 ^ 64 }
    ensures { result ≡ checked_blocks count place bytes.now }
{
    let mut place = place;
    let mut rest = bytes;
    for _ in 0..count {
        let (body, after) = first_block(rest, place)?;
        place += 2 + body.len() as u64;
        rest = after;
    }
    if rest.is_empty() {
        Ok(())
    } else {
        Err(Refusal::BlocksDisagree.at(place))
    }
}
