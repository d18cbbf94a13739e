// Little-endian fields of a datagram.
// Functions of some bytes and a place in them, and no struct of the two that counts its place: a call then says where its field stands.
ghost use Rattle.std.specs.Prelude.{◌≡◌, ℕ, ◌+◌, ◌≤◌, length, take, drop};
ghost use Rattle.wire.specs.Fields.{le, field, bytes_of, overwritten};

// An unsigned number of `N` bytes: a Short, an Integer, or the bits of a Long.
pub(crate) trait Field<const N: usize>: Copy {
    // the number
    ghost number: { Self → ℕ };

    // The number that the bytes write, the lowest first.
    fn from_bytes(bytes: &[u8; N]) -> Self
        ensures { number result ≡ le bytes.now };

    // The bytes that write the number, the lowest first.
    fn to_bytes(self) -> [u8; N]
        ensures { result ≡ bytes_of N (number self) };
}

// Written out for each width, since no macro may write an impl here.
impl Field<2> for u16 {
    ghost number = { λ n. n };

    fn from_bytes(bytes: &[u8; 2]) -> u16 {
        u16::from_le_bytes(*bytes)
    }

    fn to_bytes(self) -> [u8; 2] {
        self.to_le_bytes()
    }
}

impl Field<4> for u32 {
    ghost number = { λ n. n };

    fn from_bytes(bytes: &[u8; 4]) -> u32 {
        u32::from_le_bytes(*bytes)
    }

    fn to_bytes(self) -> [u8; 4] {
        self.to_le_bytes()
    }
}

impl Field<8> for u64 {
    ghost number = { λ n. n };

    fn from_bytes(bytes: &[u8; 8]) -> u64 {
        u64::from_le_bytes(*bytes)
    }

    fn to_bytes(self) -> [u8; 8] {
        self.to_le_bytes()
    }
}

// The field at `at`. A negative Long reads as a number above the largest Long.
pub(crate) fn field_at<const N: usize, T: Field<N>>(bytes: &[u8], at: usize) -> T
    requires { at + N ≤ length bytes.now }
    ensures { T.number result ≡ field bytes.now at N }
{
    T::from_bytes(bytes[at..].first_chunk().unwrap())
}

// Writes `bytes` over what stands at `at`.
pub(crate) fn put(out: &mut [u8], at: usize, bytes: &[u8])
    requires { at + length bytes.now ≤ length out.old }
    ensures { out.new ≡ overwritten out.old at bytes.now }
{
    out[at..at + bytes.len()].copy_from_slice(bytes);
}

// Writes a field at `at`.
pub(crate) fn put_field<const N: usize, T: Field<N>>(out: &mut [u8], at: usize, value: T)
    requires { at + N ≤ length out.old }
    ensures { out.new ≡ overwritten out.old at (bytes_of N (T.number value)) }
{
    put(out, at, &value.to_bytes());
}
