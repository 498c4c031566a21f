// A sink that fills a slice.
ghost use Rattle.std.specs.Prelude.{◌≡◌, [], length, false, true, Some, Ok, IsOk};
ghost use Rattle.dn_sink.specs.State.MemorySinks.{room_for, filled};
ghost use Rattle.dn_sink.specs.State.Turns.{Turn, Flush};

use crate::sink::{Sink, SinkFault};
use std::marker::Model;

/// Fills a slice from its beginning. The sink has failed once it took 0 bytes of a non-empty piece.
#[derive(Drop)]
pub struct Room<'a> {
    room: &'a mut [u8],
    used: usize,
    failed: bool,
}

impl<'a> Model for Room<'a> {
    ghost use Rattle.std.specs.Prelude.{◌≡◌, ◌≤◌, length, take};
    ghost use Rattle.dn_sink.specs.State.MemorySinks.{Filled};

    ghost Value = { Filled };

    ghost view = { λ s. record { size = length s.room.now; bytes = take s.used s.room.now; failed = s.failed } };

    ghost invariant = { λ s. s.used ≤ length s.room.now };
}

impl<'a> Room<'a> {
    /// Returns a sink for a slice, with no bytes taken yet.
    pub fn new(room: &'a mut [u8]) -> Room<'a>
        ensures size { result.size ≡ length room.entry.now }
        ensures bytes { result.bytes ≡ [] }
        ensures fine { result.failed ≡ false }
    {
        Room {
            room,
            used: 0,
            failed: false,
        }
    }

    /// Returns the bytes taken.
    pub fn taken(&self) -> &[u8]
        ensures { result.now ≡ self.now.bytes }
    {
        &self.room[..self.used]
    }
}

impl<'a> Sink for Room<'a> {
    // Nothing is buffered, so the sink is always flushed.
    ghost sink = { record { taken = λ s. Some s.bytes; has_failed = λ s. s.failed; is_flushed = λ _. true } };

    // Takes as much of the piece as fits, and never returns a fault.
    fn put(&mut self, piece: &[u8]) -> Result<usize, SinkFault>
        ensures turn { Turn ⟦<Room<'a> as Sink>⟧.sink self.old self.new piece.now result }
        ensures room { result ≡ Ok (room_for self.old piece.now) }
        ensures fills { self.new ≡ filled self.old piece.now }
    {
        let left = self.room.len() - self.used;
        let n = left.min(piece.len());
        self.room[self.used..self.used + n].copy_from_slice(&piece[..n]);
        self.used += n;
        if n == 0 && !piece.is_empty() {
            self.failed = true;
        }
        Ok(n)
    }

    // Changes nothing, and always returns `Ok`.
    fn flush(&mut self) -> Result<(), SinkFault>
        ensures flush { Flush ⟦<Room<'a> as Sink>⟧.sink self.old self.new result }
        ensures always { IsOk result }
        ensures same { self.new ≡ self.old }
    {
        Ok(())
    }
}
