// A sink that passes its bytes to a writer.
ghost use Rattle.std.specs.Prelude.{◌≡◌, false, IsTrue, IsErr, OnOk};
ghost use Rattle.dn_sink.specs.State.Turns.{Turn, Flush};

use crate::sink::{Sink, SinkFault};
use std::io::Write;

/// Passes the bytes to a writer. The sink fails if the writer returns an error, or takes 0 bytes of a non-empty piece.
/// A failed sink does not write again.
#[derive(Drop)]
pub struct ToWrite<W: Write> {
    writer: W,
    failed: bool,
    flushed: bool,
}

impl<W: Write> ToWrite<W> {
    /// Returns a sink that counts the writer's present contents as taken, and not as flushed.
    pub fn new(writer: W) -> ToWrite<W>
        ensures taken { ⟦<ToWrite<W> as Sink>⟧.sink.taken result ≡ W.contents writer }
        ensures fine { ⟦<ToWrite<W> as Sink>⟧.sink.has_failed result ≡ false }
        ensures unflushed { ⟦<ToWrite<W> as Sink>⟧.sink.is_flushed result ≡ false }
    {
        ToWrite {
            writer,
            failed: false,
            flushed: false,
        }
    }
}

impl<W: Write> Sink for ToWrite<W> {
    // The sink is flushed if the writer was flushed after the last piece.
    ghost sink = { record {
      taken = λ s. W.contents s.writer;
      has_failed = λ s. s.failed;
      is_flushed = λ s. s.flushed;
    } };

    // A failed sink takes nothing.
    fn put(&mut self, piece: &[u8]) -> Result<usize, SinkFault>
        ensures turn { Turn ⟦<ToWrite<W> as Sink>⟧.sink self.old self.new piece.now result }
        ensures again { IsTrue (⟦<ToWrite<W> as Sink>⟧.sink.has_failed self.old) → IsErr result }
        ensures unflushed { OnOk result (⟦<ToWrite<W> as Sink>⟧.sink.is_flushed self.new ≡ false) }
    {
        if self.failed {
            return Err(SinkFault);
        }
        self.flushed = false;
        match self.writer.write(piece) {
            Ok(n) => {
                if n == 0 && !piece.is_empty() {
                    self.failed = true;
                }
                Ok(n)
            }
            Err(_) => {
                self.failed = true;
                Err(SinkFault)
            }
        }
    }

    // A failed sink returns a fault.
    fn flush(&mut self) -> Result<(), SinkFault>
        ensures flush { Flush ⟦<ToWrite<W> as Sink>⟧.sink self.old self.new result }
        ensures again { IsTrue (⟦<ToWrite<W> as Sink>⟧.sink.has_failed self.old) → IsErr result }
    {
        if self.failed {
            return Err(SinkFault);
        }
        if self.writer.flush().is_err() {
            self.failed = true;
            return Err(SinkFault);
        }
        self.flushed = true;
        Ok(())
    }
}
