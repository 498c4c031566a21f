// Where the bytes of a text go.
ghost use Rattle.std.specs.Prelude.{IsTrue, OnOk};
ghost use Rattle.dn_sink.specs.Puts.{Puts};
ghost use Rattle.dn_sink.specs.Sinks.{SinkFacts};
ghost use Rattle.dn_sink.specs.State.Turns.{Turn, Flush};

use thiserror::Error;

/// The error of a sink that failed.
#[derive(Clone, Copy, Debug, PartialEq, Eq, Error)]
#[error("the sink of bytes failed")]
pub struct SinkFault;

/// Takes bytes piece by piece.
pub trait Sink {
    /// How the sink describes itself.
    ghost sink: { SinkFacts Self };

    /// Takes bytes from the beginning of `piece`, and returns how many. It returns a fault, or 0 for a non-empty piece,
    /// only if the sink has failed. On a fault it takes none. Otherwise it does not change whether the sink has failed.
    fn put(&mut self, piece: &[u8]) -> Result<usize, SinkFault>
        ensures { Turn sink self.old self.new piece.now result };

    /// Passes on the bytes taken that the sink still holds. It takes no bytes, and returns a fault only if the sink has
    /// failed.
    fn flush(&mut self) -> Result<(), SinkFault>
        ensures { Flush sink self.old self.new result };
}

/// Puts a whole piece, with as many calls of `Sink::put` as the sink needs.
///
/// # Errors
///
/// The sink failed, or took 0 bytes of the rest. It has then taken a prefix of the piece.
pub fn put_all<K: Sink>(sink: &mut K, piece: &[u8]) -> Result<(), SinkFault>
    ensures { Puts K.sink sink.old sink.new piece.now result }
{
    let mut at = 0;
    while at < piece.len() {
        let n = sink.put(&piece[at..])?;
        if n == 0 {
            return Err(SinkFault);
        }
        at += n;
    }
    Ok(())
}

/// Puts a whole piece, and then flushes the sink.
///
/// # Errors
///
/// The sink failed. It has taken the piece or a prefix of it.
pub fn put_and_flush<K: Sink>(sink: &mut K, piece: &[u8]) -> Result<(), SinkFault>
    ensures puts { Puts K.sink sink.old sink.new piece.now result }
    ensures flushed { OnOk result (IsTrue (K.sink.is_flushed sink.new)) }
{
    put_all(sink, piece)?;
    sink.flush()
}
