// A store that grows, in memory of a stated size.
ghost use Rattle.std.specs.Prelude.{◌≡◌, ◌≤◌, false, [], length, take, replicate, is_ok, IfOk};
ghost use Rattle.memory.specs.MessageBuffers.{data_bytes};
ghost use Rattle.std.specs.Option.{option_copied};
ghost use Rattle.wire.specs.Segments.{Z};
ghost use Rattle.wire.specs.Sessions.{span, message_of};
ghost use Rattle.wire.specs.Writing.{some_long};
ghost use Rattle.store.specs.Stores.{where_inside};

use memory::message_buffer::MessageBuffer;
use std::alloc::{AllocError, Global};
use wire::fault::{Fault, Refusal};
use wire::limits::{LONG_MAX, MAX_MESSAGE};

// The messages that were appended. It has ghost fields and no model: it is to be a `Store`, whose law asks the first two
// of these facts of every value, and a model's value does not have them.
#[derive(Drop)]
pub struct Live {
    buffer: MessageBuffer,
    ghost short: { some_long buffer.messages ≡ false },
    ghost placeable: { span buffer.messages ≤ Z },
    ghost counted: { length buffer.messages ≤ buffer.entries },
    ghost within: { data_bytes buffer.messages ≤ buffer.bytes },
}

impl Live {
    ghost use Rattle.store.specs.LiveStores.{kept, append_answer, appended};

    // A store with no message, with memory for `entries` messages that have `bytes` data bytes together.
    pub fn new(heap: Global, entries: usize, bytes: usize) -> Result<Live, AllocError>
        ensures { IfOk result (λ l. kept l ≡ record { messages = []; entries = entries; bytes = bytes; free = replicate bytes 0; reserved = (kept l).reserved }) }
    {
        let buffer = MessageBuffer::new(heap, entries, bytes)?;
        Ok(Live { buffer })
    }

    // Adds a message at the end. One that is longer than a message may be is refused, and so is one for which there is no room or
    // whose block would end past the largest Long; nothing then changes.
    #[tactic(auto, using(crate::proofs::LiveStores::appending))]
    pub fn append(&mut self, body: &[u8]) -> Result<(), Fault>
        ensures value { result ≡ append_answer (kept self.old) body.now }
        ensures after { kept self.new ≡ appended result (kept self.old) body.now }
        ensures refused { is_ok result ≡ false → self.new ≡ self.old }
    {
        if body.len() > MAX_MESSAGE {
            return Err(Refusal::LongMessage.at(0));
        }
        if self.total() + 2 + body.len() as u64 > LONG_MAX {
            return Err(Refusal::StoreFull.at(0));
        }
        self.buffer.push(body).map_err(|_| Refusal::StoreFull.at(0))
    }

    // Where the block of message `index` begins, counted from 0; past the last message, where all blocks end.
    #[tactic(auto, using(crate::proofs::LiveStores::place_is, crate::proofs::Touching::span_part, wire::proofs::Writing::long_span))]
    fn place(&self, index: usize) -> u64
        requires { index ≤ length (kept self.now).messages }
        ensures { result ≡ span (take index (kept self.now).messages) }
    {
        2 * index as u64 + self.buffer.start(index) as u64
    }

    // How many bytes the blocks have.
    #[tactic(auto, using(std::proofs::lemmas::List::take_all))]
    fn total(&self) -> u64
        ensures { result ≡ span (kept self.now).messages }
    {
        self.place(self.buffer.count())
    }

    // The data of message `number`.
    fn body(&self, number: u64) -> Option<&[u8]>
        ensures { option_copied result ≡ where_inside (kept self.now).messages number (message_of (kept self.now).messages number) }
    {
        self.buffer.get(number.checked_sub(1)? as usize)
    }
}
