// What was read of a capture and is not done with.
ghost use Rattle.std.specs.Prelude.{◌≡◌, ◌+◌, ◌<◌, ◌≤◌, [], length, take, drop, IfOk};
ghost use Rattle.std.specs.Io.KnownBytes.{Consumes, IsAtEnd};
ghost use Rattle.capture.specs.Intakes.{read_count};

use std::alloc::{AllocError, Global};
use std::io;
use std::io::Read;
use std::marker::Model;

// The most bytes that an intake holds: many times a record's most.
pub const SIZE: usize = 1_048_576;

// Bytes in the order in which they came.
#[derive(Drop)]
pub struct Intake {
    // the bytes that are held, and free ones behind them
    memory: Vec<u8>,
    // how many are held. Not the Vec's length: bytes to be read into have to be there, and would be cleared before each read
    held: usize,
}

impl Model for Intake {
    ghost use Rattle.std.specs.Prelude.{ℕ, List, ◌≡◌, ◌≤◌, take, vec_len};
    ghost use Rattle.capture.specs.declared.intake.TheConstants.{SIZE};

    ghost Value = { List ℕ };

    ghost view = { λ i. take i.held i.memory.items };

    ghost invariant = { λ i. (i.held ≤ SIZE) × (vec_len i.memory ≡ SIZE) };
}

impl Intake {
    // An intake that holds nothing.
    pub fn new(heap: Global) -> Result<Intake, AllocError>
        ensures { IfOk result (λ i. i ≡ []) }
    {
        let memory = vec![in heap; 0; SIZE]?;
        Ok(Intake { memory, held: 0 })
    }

    // The bytes that are held.
    pub fn bytes(&self) -> &[u8]
        ensures { result.now ≡ self.now }
    {
        &self.memory[..self.held]
    }

    // Reads more, behind what is held, and says how much: 0 at the input's end, or where the memory is full.
    #[tactic(auto, using(crate::proofs::Intakes::filling))]
    pub fn fill<R: Read>(&mut self, source: &mut R) -> io::Result<usize>
        ensures kept { take (length self.old) self.new ≡ self.old }
        ensures more { length self.new ≡ length self.old + read_count result }
        ensures taken { Consumes (R.remaining source.old) (R.remaining source.new) (drop (length self.old) self.new) }
        ensures end { result ≡ Ok 0 → length self.old < SIZE → IsAtEnd (R.remaining source.new) }
    {
        let read = read_behind(&mut self.memory, self.held, source)?;
        self.held += read;
        Ok(read)
    }

    // Lets go of the first `n` bytes, or of all where there are fewer.
    #[tactic(auto, using(crate::proofs::Intakes::discarded))]
    pub fn discard(&mut self, n: usize)
        ensures { self.new ≡ drop n self.old }
    {
        let n = n.min(self.held);
        self.memory.copy_within(n..self.held, 0);
        self.held -= n;
    }
}

// Reads into `memory` behind its first `held` bytes, which stay.
fn read_behind<R: Read>(memory: &mut [u8], held: usize, source: &mut R) -> io::Result<usize>
    requires { held ≤ length memory.old }
    ensures kept { take held memory.new ≡ take held memory.old }
    ensures bound { held + read_count result ≤ length memory.old }
    ensures taken { Consumes (R.remaining source.old) (R.remaining source.new) (take (read_count result) (drop held memory.new)) }
    ensures end { result ≡ Ok 0 → held < length memory.old → IsAtEnd (R.remaining source.new) }
{
    source.read(&mut memory[held..])
}
