// Why something was refused, by which layer, and at which byte.
ghost use Rattle.std.specs.Prelude.{◌≡◌, ◌==◌, ◌↔◌, IsTrue, Some};
ghost use Rattle.wire.specs.Faults.{entry_of, fault, layer_text, fault_text};

use std::fmt;

// The part of the system that refuses.
#[derive(Clone, Copy, Debug, PartialEq, Eq)]
pub enum Layer {
    Header,
    Block,
    Stream,
    Request,
    Link,
    Setup,
    Sink,
}

// What is wrong, with the number by which installers know it. `docs/REFUSALS.md` has the table, with the place of each.
#[derive(Clone, Copy, Debug, PartialEq, Eq)]
pub enum Refusal {
    ShortDatagram = 1,
    LongDatagram = 2,
    WrongVersion = 3,
    WrongProtocol = 4,
    WrongChannel = 5,
    WrongSession = 6,
    WrongLength = 7,
    OutOfRange = 8,
    BlocksDisagree = 9,
    LongBlock = 10,
    OffsetMismatch = 11,
    ShortRequest = 12,
    WrongRequestVersion = 13,
    WrongRequestType = 14,
    WrongRequestProtocol = 15,
    WrongRequestChannel = 16,
    WrongRequestSession = 17,
    WrongRangeCount = 18,
    WrongRequestLength = 19,
    InvalidRange = 20,
    RangesNotAscending = 21,
    NoRoomForRequest = 22,
    SettingOutOfRange = 23,
    ShortBuffer = 24,
    NotWholeBlocks = 25,
    LongMessage = 26,
    StoreFull = 27,
    NothingMissing = 28,
    SinkRefused = 29,
}

// A refusal, and the byte at which it was found.
#[derive(Clone, Copy, Debug, PartialEq, Eq)]
pub struct Fault {
    pub refusal: Refusal,
    pub place: u64,
}

impl Refusal {
    // The number by which installers know this refusal. No other has it.
    pub fn number(self) -> u8
        ensures value { result ≡ (entry_of self).number }
        ensures distinct { (r : Refusal) → (entry_of r).number ≡ result → r ≡ self }
    {
        self as u8
    }

    // The layer that refuses so.
    pub fn layer(self) -> Layer
        ensures { result ≡ (entry_of self).layer }
    {
        match self {
            Refusal::ShortDatagram
            | Refusal::LongDatagram
            | Refusal::WrongVersion
            | Refusal::WrongProtocol
            | Refusal::WrongChannel
            | Refusal::WrongSession
            | Refusal::WrongLength
            | Refusal::OutOfRange => Layer::Header,
            Refusal::BlocksDisagree | Refusal::LongBlock => Layer::Block,
            Refusal::OffsetMismatch | Refusal::NothingMissing => Layer::Stream,
            Refusal::ShortRequest
            | Refusal::WrongRequestVersion
            | Refusal::WrongRequestType
            | Refusal::WrongRequestProtocol
            | Refusal::WrongRequestChannel
            | Refusal::WrongRequestSession
            | Refusal::WrongRangeCount
            | Refusal::WrongRequestLength
            | Refusal::InvalidRange
            | Refusal::RangesNotAscending => Layer::Request,
            Refusal::NoRoomForRequest => Layer::Link,
            Refusal::SettingOutOfRange
            | Refusal::ShortBuffer
            | Refusal::NotWholeBlocks
            | Refusal::LongMessage
            | Refusal::StoreFull => Layer::Setup,
            Refusal::SinkRefused => Layer::Sink,
        }
    }

    // This refusal, found at a byte.
    pub fn at(self, place: u64) -> Fault
        ensures { result ≡ fault self place }
    {
        Fault {
            refusal: self,
            place,
        }
    }
}

// Proves what `==` says of refusals; it does nothing.
pub fn refusal_laws()
    ensures numbers { (x y : Refusal) → ⟦<Refusal as PartialEq>⟧.eq x y ≡ ((entry_of x).number == (entry_of y).number) }
    ensures decides { (x y : Refusal) → IsTrue (⟦<Refusal as PartialEq>⟧.eq x y) ↔ (x ≡ y) }
{}

// A layer's name, in lower case.
impl fmt::Display for Layer {
    ghost output = { λ l. Some (layer_text l) };

    fn fmt<W: fmt::Write>(&self, f: &mut fmt::Formatter<W>) -> fmt::Result {
        let name = match self {
            Layer::Header => "header",
            Layer::Block => "block",
            Layer::Stream => "stream",
            Layer::Request => "request",
            Layer::Link => "link",
            Layer::Setup => "setup",
            Layer::Sink => "sink",
        };
        write!(f, "{name}")
    }
}

// A fault's number, layer and place.
impl fmt::Display for Fault {
    ghost output = { λ f. Some (fault_text f) };

    fn fmt<W: fmt::Write>(&self, f: &mut fmt::Formatter<W>) -> fmt::Result {
        write!(
            f,
            "number {}, layer {}, place {}",
            self.refusal.number(),
            self.refusal.layer(),
            self.place
        )
    }
}
