// The trait that every store implements.
ghost use Rattle.std.specs.Prelude.{◌≡◌, ℕ, List, length};
ghost use Rattle.wire.specs.Sessions.{span};
ghost use Rattle.store.specs.Laws.{PlacesFit, BytesTouchOne};
ghost use Rattle.store.specs.Stores.{Storable, length_at, place_at, touching_at, copy_answer, copy_left};

use wire::fault::Fault;

// Messages in the order of their numbers, the first one being message 1. Its place is where its block would begin if all blocks
// stood one behind the other. No question changes anything.
pub trait Store {
    // the data of each message
    ghost messages: { Self → List (List ℕ) };

    // How many messages there are.
    fn count(&self) -> u64
        ensures { result ≡ length (messages self.now) };

    // How many bytes their blocks have.
    fn byte_total(&self) -> u64
        ensures { result ≡ span (messages self.now) };

    // The length of message `number`.
    fn length_of(&self, number: u64) -> Option<usize>
        ensures { result ≡ length_at (messages self.now) number };

    // The place of message `number`.
    fn place_of(&self, number: u64) -> Option<u64>
        ensures { result ≡ place_at (messages self.now) number };

    // The number of the message whose block has byte `byte`.
    fn touching(&self, byte: u64) -> Option<u64>
        ensures { result ≡ touching_at (messages self.now) byte };

    // Copies message `number` over the front of `out`, and answers its length, or `None` where there is no such message.
    fn copy(&self, number: u64, out: &mut [u8]) -> Result<Option<usize>, Fault>
        ensures value { result ≡ copy_answer (messages self.now) number out.old }
        ensures after { out.new ≡ copy_left (messages self.now) number out.old };

    ghost storable: { (s : Self) → Storable (messages s) };
}

// Proves how the answers of every store fit together; it does nothing.
pub fn store_laws<S: Store>(store: &S)
    ensures places { PlacesFit (S.Store.messages store.now) }
    ensures bytes { BytesTouchOne (S.Store.messages store.now) }
{
    let _ = store;
}
