// A sink in memory.
ghost use Rattle.std.specs.Prelude.{◌≡◌, ◌↔◌, ◌<◌, [], ◌++◌, length, false, true, Some, IsTrue, IsErr, IfOk, OnErr};
ghost use Rattle.dn_sink.specs.State.Turns.{Turn, Flush};

use crate::sink::{Sink, SinkFault};
use std::alloc::Global;
use std::marker::Model;

/// Keeps the bytes in memory. Fails when an allocation for them fails.
#[derive(Drop)]
pub struct Bytes {
    all: Vec<u8>,
    failed: bool,
}

impl Model for Bytes {
    ghost use Rattle.std.specs.Prelude.{vec_capacity};
    ghost use Rattle.dn_sink.specs.State.MemorySinks.{Taken};

    ghost Value = { Taken };

    ghost view = { λ s. record { bytes = s.all.items; capacity = vec_capacity s.all; failed = s.failed } };
}

impl Bytes {
    /// Returns a sink without bytes.
    pub fn new(alloc: Global) -> Bytes
        ensures bytes { result.bytes ≡ [] }
        ensures fine { result.failed ≡ false }
    {
        Bytes {
            all: Vec::new(alloc),
            failed: false,
        }
    }

    /// Returns the bytes taken.
    pub fn taken(&self) -> &[u8]
        ensures { result.now ≡ self.now.bytes }
    {
        &self.all
    }

    /// Returns the vector of the bytes taken.
    pub fn into_all(self) -> Vec<u8>
        ensures { result.items ≡ self.bytes }
    {
        let Bytes { all, .. } = self;
        all
    }
}

impl Sink for Bytes {
    // Nothing is buffered, so the sink is always flushed.
    ghost sink = { record { taken = λ s. Some s.bytes; has_failed = λ s. s.failed; is_flushed = λ _. true } };

    // Takes the whole piece or fails. A failed sink takes nothing.
    fn put(&mut self, piece: &[u8]) -> Result<usize, SinkFault>
        ensures turn { Turn ⟦<Bytes as Sink>⟧.sink self.old self.new piece.now result }
        ensures whole { IfOk result (λ n. (n ≡ length piece.now) × (self.new.failed ≡ false)) }
        ensures again { IsTrue self.old.failed → IsErr result }
        ensures memory { OnErr result (self.old.failed ≡ false
            → self.old.capacity < length (self.old.bytes ++ piece.now)) }
    {
        if self.failed {
            return Err(SinkFault);
        }
        match self.all.extend_from_slice(piece) {
            Ok(()) => Ok(piece.len()),
            Err(_) => {
                self.failed = true;
                Err(SinkFault)
            }
        }
    }

    // Changes nothing. Returns a fault if and only if the sink has failed.
    fn flush(&mut self) -> Result<(), SinkFault>
        ensures flush { Flush ⟦<Bytes as Sink>⟧.sink self.old self.new result }
        ensures again { IsErr result ↔ IsTrue self.old.failed }
        ensures same { self.new ≡ self.old }
    {
        if self.failed { Err(SinkFault) } else { Ok(()) }
    }
}
