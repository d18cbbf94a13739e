// Where a segment or a request belongs, and what a reader accepts.
ghost use Rattle.std.specs.Prelude.{◌≡◌, ◌≤◌, length, Ok};
ghost use Rattle.wire.specs.Addresses.{address_bytes, other_address_checks, expected_of};
ghost use Rattle.wire.specs.Fields.{overwritten};
ghost use Rattle.wire.specs.Outcomes.{first_fault};
ghost use Rattle.wire.specs.RoundTrip.{FitsAddress};

use crate::fault::{Fault, Refusal};
use crate::field::{field_at, put_field};

// The stream that a segment belongs to: a message protocol, a channel of it, and one session of the channel.
#[derive(Clone, Copy, Debug, PartialEq, Eq)]
pub struct Address {
    pub protocol: u16,
    pub channel: u32,
    pub session: u32,
}

impl Address {
    // Writes the address into a header, of a segment or of a request.
    pub(crate) fn put(&self, header: &mut [u8])
        requires { 12 ≤ length header.old }
        ensures fits { FitsAddress self.now }
        ensures after { header.new ≡ overwritten header.old 2 (address_bytes self.now) }
    {
        put_field(header, 2, self.protocol);
        put_field(header, 4, self.channel);
        put_field(header, 8, self.session);
    }
}

// What a reader accepts. Where `session` is `None`, any session will do.
// Not one type with `Address`, generic in the session: each use would then name the session's type, and say no more.
#[derive(Clone, Copy, Debug, PartialEq, Eq)]
pub struct Expected {
    pub protocol: u16,
    pub channel: u32,
    pub session: Option<u32>,
}

// A reader that expects an address expects its session too.
impl From<Address> for Expected {
    ghost from_gives = { λ a e. e ≡ expected_of a };

    fn from(address: Address) -> Expected {
        Expected {
            protocol: address.protocol,
            channel: address.channel,
            session: Some(address.session),
        }
    }
}

// The refusals of a header that names another protocol, another channel or another session than the reader expects.
#[derive(Clone, Copy)]
pub(crate) struct AddressRefusals {
    pub protocol: Refusal,
    pub channel: Refusal,
    pub session: Refusal,
}

impl Expected {
    // Whether a header, of a segment or of a request, names what is expected. Both have the address at the same places.
    pub(crate) fn check_address(
        &self,
        header: &[u8],
        refusals: AddressRefusals,
    ) -> Result<(), Fault>
        requires { 12 ≤ length header.now }
        ensures { result ≡ first_fault (other_address_checks refusals self.now header.now) (Ok tt) }
    {
        if self.protocol != field_at(header, 2) {
            return Err(refusals.protocol.at(2));
        }
        if self.channel != field_at(header, 4) {
            return Err(refusals.channel.at(4));
        }
        match self.session {
            Some(session) if session != field_at(header, 8) => Err(refusals.session.at(8)),
            _ => Ok(()),
        }
    }
}
