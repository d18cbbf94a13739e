// What the headers of segments and of requests have in common.
ghost use Rattle.std.specs.Prelude.{◌≡◌};
ghost use Rattle.wire.specs.Headers.{split_header};
ghost use Rattle.wire.specs.Outcomes.{map_ok};

use crate::fault::{Fault, Refusal};

// The header of `N` bytes at the front of `bytes`, and what stands behind it. Fewer bytes are refused as `short`.
pub(crate) fn split_header<const N: usize>(
    bytes: &[u8],
    short: Refusal,
) -> Result<(&[u8; N], &[u8]), Fault>
    ensures { map_ok (λ p. (p.0.now, p.1.now)) result ≡ split_header N short bytes.now }
{
    bytes
        .split_first_chunk()
        .ok_or(short.at(bytes.len() as u64))
}
