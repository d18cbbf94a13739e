// Messages one behind the other, in memory of a stated size.
ghost use Rattle.std.specs.Prelude.{◌≡◌, ◌≤◌, true, [], length, take, drop, replicate, vec_len, vec_capacity, is_ok, slice_get, IfOk, if◌then◌else◌};
ghost use Rattle.std.specs.Option.{option_copied};
ghost use Rattle.memory.specs.Ends.{rise, last_end, between};
ghost use Rattle.memory.specs.MessageBuffers.{Buffered, data_bytes, has_room, with_message};

use std::alloc::{AllocError, Global};
use std::marker::Model;

// An append-only buffer of messages. It has a stated number of entries, one a message, and a stated number of data bytes.
#[derive(Drop)]
pub struct MessageBuffer {
    // where the data of each message ends in `bytes`; the next one begins there. Its capacity is the number of entries
    ends: Vec<usize>,
    // the data, and free bytes behind it. Its length is the room, not its capacity, which `extend_from_slice` is not known to keep
    bytes: Vec<u8>,
}

// Clauses see the messages, how many entries and data bytes there are, what stands in the free bytes, and how much memory is reserved.
impl Model for MessageBuffer {
    ghost Value = { Buffered };

    ghost view = { λ b. record { messages = between 0 b.ends.items b.bytes.items; entries = vec_capacity b.ends; bytes = vec_len b.bytes; free = drop (last_end 0 b.ends.items) b.bytes.items; reserved = vec_capacity b.bytes } };

    ghost invariant = { λ b. (rise 0 b.ends.items (last_end 0 b.ends.items) ≡ true) × (last_end 0 b.ends.items ≤ vec_len b.bytes) };
}

// A message has no room: no entry is free, or fewer bytes are free than it has.
#[derive(Clone, Copy, Debug, PartialEq, Eq)]
pub struct NoRoom;

impl MessageBuffer {
    // A buffer with no message, for `entries` messages that have `bytes` bytes together.
    pub fn new(heap: Global, entries: usize, bytes: usize) -> Result<MessageBuffer, AllocError>
        ensures { IfOk result (λ b. b ≡ record { messages = []; entries = entries; bytes = bytes; free = replicate bytes 0; reserved = b.reserved }) }
    {
        let ends = Vec::with_capacity(heap, entries)?;
        let bytes = vec![in heap; 0; bytes]?;
        Ok(MessageBuffer { ends, bytes })
    }

    // How many messages there are.
    pub fn count(&self) -> usize
        ensures value { result ≡ length self.now.messages }
        ensures within { result ≤ self.now.entries }
    {
        self.ends.len()
    }

    // Whether a message of `size` bytes has room: an entry is free, and there are no fewer free bytes than it has.
    pub fn has_room(&self, size: usize) -> bool
        ensures { result ≡ has_room self.now size }
    {
        self.ends.len() < self.ends.capacity() && size <= self.bytes.len() - self.used()
    }

    // Adds a message at the end, where it has room; where it has none, nothing changes.
    #[tactic(auto, using(crate::proofs::Ends::pushing))]
    pub fn push(&mut self, body: &[u8]) -> Result<(), NoRoom>
        ensures value { is_ok result ≡ has_room self.old (length body.now) }
        ensures after { self.new ≡ (if is_ok result then with_message self.old body.now else self.old) }
    {
        if !self.has_room(body.len()) {
            return Err(NoRoom);
        }
        let start = self.used();
        let end = start + body.len();
        self.bytes[start..end].copy_from_slice(body);
        self.ends.push_reserved(end);
        Ok(())
    }

    // How many data bytes there are. Not `self.start(self.count())`: tried, and the proof did not close.
    fn used(&self) -> usize
        ensures { result ≡ data_bytes self.now.messages }
    {
        self.ends.last().copied().unwrap_or(0)
    }

    // How many data bytes the messages before `index` have, which is counted from 0.
    pub fn start(&self, index: usize) -> usize
        ensures value { result ≡ data_bytes (take index self.now.messages) }
        ensures within { result ≤ self.now.bytes }
    {
        let before = &self.ends[..index.min(self.ends.len())];
        before.last().copied().unwrap_or(0)
    }

    // The data of message `index`, counted from 0.
    pub fn get(&self, index: usize) -> Option<&[u8]>
        ensures { option_copied result ≡ slice_get self.now.messages index }
    {
        let end = *self.ends.get(index)?;
        Some(&self.bytes[self.start(index)..end])
    }
}
