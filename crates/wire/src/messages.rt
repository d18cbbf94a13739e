// The messages of a segment, which borrow the datagram, and a cursor over them.
ghost use Rattle.std.specs.Prelude.{◌≡◌, IfNone};
ghost use Rattle.wire.specs.Cursor.{unread, placed};
ghost use Rattle.std.specs.Iterator.{YieldsFirstBy, item_count};

use crate::block::first_block;

// One message: its number, its place (the stream offset of its length field), and its data, a part of the datagram.
#[derive(Clone, Copy, Debug)]
pub struct Message<'a> {
    pub number: u64,
    pub place: u64,
    pub body: &'a [u8],
}

// The messages of a segment that are still to be handed out. It has no model, since a `Copy` struct with a lifetime can have none.
#[derive(Clone, Copy, Debug)]
pub struct Messages<'a> {
    // the blocks, a part of the datagram
    rest: &'a [u8],
    // how many blocks there are; kept beside them, since what is left is defined by it, of any bytes
    left: u16,
    // the number and the place of the first of them
    number: u64,
    place: u64,
}

impl<'a> Messages<'a> {
    pub(crate) fn new(rest: &'a [u8], left: u16, number: u64, place: u64) -> Messages<'a>
        ensures rest { result.rest.now ≡ rest.now }
        ensures left { result.left ≡ left }
        ensures number { result.number ≡ number }
        ensures place { result.place ≡ place }
    {
        Messages {
            rest,
            left,
            number,
            place,
        }
    }
}

// Hands out one message after another; where `next` answers `None`, none is left.
impl<'a> Iterator for Messages<'a> {
    type Item = Message<'a>;

    ghost next_gives = { λ s r t. YieldsFirstBy placed unread s r t × IfNone r (t ≡ s) };

    ghost remaining = { item_count unread };

    fn next(&mut self) -> Option<Message<'a>> {
        if self.left == 0 {
            return None;
        }
        let (body, rest) = first_block(self.rest, self.place).ok()?;
        let message = Message {
            number: self.number,
            place: self.place,
            body,
        };
        self.rest = rest;
        self.left -= 1;
        self.number = self.number.wrapping_add(1);
        self.place = self.place.wrapping_add(2 + body.len() as u64);
        Some(message)
    }
}
