// A source over a stream.
ghost use Rattle.std.specs.Prelude.{◌≡◌, ◌<◌, ◌≤◌, [], ◌++◌, length, false, slice_range, IfOk, IsTrue, OnOk, OnErr, vec_len};
ghost use Rattle.std.specs.Io.KnownBytes.{Keeps, IsAtEnd, prepend_known};
ghost use Rattle.dn_host.specs.Openers.{Remains};
ghost use Rattle.dn_host.specs.Streams.{PullsStream};

use crate::stream::{Stream, read_retrying};
use dn_line::{ByteSource, SourceFault, piece_len};
use std::alloc::{AllocError, Global};

// The size in bytes of the buffer of a source.
const BUFFER: usize = 65536;

/// Gives the bytes of a stream. It lends pieces of its buffer, which keeps the number of reads small, however few bytes
/// a pull asks for. An interrupted read is retried. Any other error is a failure, and after a failure the source does
/// not read again.
#[derive(Drop)]
pub struct Buffered<S: Stream> {
    stream: S,
    // The bytes from `begin` to `start` are the piece, and those from `start` to `end` were read, and not given yet.
    bytes: Vec<u8>,
    begin: usize,
    start: usize,
    end: usize,
    failed: bool,
    ghost begun: { begin ≤ start },
    ghost ordered: { start ≤ end },
    ghost within: { end ≤ vec_len bytes },
    ghost some: { 0 < vec_len bytes },
}

impl<S: Stream> Buffered<S> {
    /// Returns a source of the bytes of a stream. Fails if there is no memory for the buffer.
    pub fn new(alloc: Global, stream: S) -> Result<Buffered<S>, AllocError>
    where
        S: Drop,
        ensures gives { IfOk result
            (λ b. Remains (S.stream.gives stream) (⟦<Buffered<S> as ByteSource>⟧.source.gives b)) }
        ensures fine { IfOk result (λ b. ⟦<Buffered<S> as ByteSource>⟧.source.has_failed b ≡ false) }
    {
        let mut bytes = Vec::with_capacity(alloc, BUFFER)?;
        bytes.resize(BUFFER, 0)?;
        Ok(Buffered {
            stream,
            bytes,
            begin: 0,
            start: 0,
            end: 0,
            failed: false,
        })
    }

    // Reads into the buffer, whose bytes were all given.
    fn fill(&mut self) -> Result<(), SourceFault>
        requires given { self.old.start ≡ self.old.end }
        requires fine { self.old.failed ≡ false }
        ensures bytes { Keeps (S.stream.gives self.old.stream)
            (prepend_known (slice_range self.new.bytes.items self.new.start self.new.end)
            (S.stream.gives self.new.stream)) }
        ensures end { OnOk result (self.new.end ≤ self.new.start → IsAtEnd (S.stream.gives self.new.stream)) }
        ensures fine { OnOk result (self.new.failed ≡ false) }
        ensures failed { OnErr result (IsTrue self.new.failed) }
        ensures pulls { PullsStream S.stream (record { stream = self.old.stream; failed = self.old.failed })
            (record { stream = self.new.stream; failed = self.new.failed }) }
    {
        self.begin = 0;
        self.start = 0;
        self.end = 0;
        match read_retrying(&mut self.stream, self.bytes.as_mut_slice()) {
            Ok(n) => {
                self.end = n;
                Ok(())
            }
            Err(_) => {
                self.failed = true;
                Err(SourceFault)
            }
        }
    }

    // Makes the next bytes of the buffer the piece, at most `most`.
    fn give(&mut self, most: usize)
        ensures bound { length (slice_range self.new.bytes.items self.new.begin self.new.start) ≤ most }
        ensures bytes { slice_range self.old.bytes.items self.old.start self.old.end
            ≡ slice_range self.new.bytes.items self.new.begin self.new.start
            ++ slice_range self.new.bytes.items self.new.start self.new.end }
        ensures none { slice_range self.new.bytes.items self.new.begin self.new.start ≡ [] → 0 < most
            → self.new.end ≤ self.new.start }
        ensures stream { self.new.stream ≡ self.old.stream }
        ensures failed { self.new.failed ≡ self.old.failed }
    {
        self.begin = self.start;
        self.start += piece_len(&self.bytes[self.start..self.end], most);
    }
}

impl<S: Stream> ByteSource for Buffered<S> {
    ghost source = { record {
      gives = λ s. prepend_known (slice_range s.bytes.items s.start s.end) (S.stream.gives s.stream);
      has_failed = λ s. s.failed;
      Pulls = λ old new. PullsStream S.stream (record { stream = old.stream; failed = old.failed })
          (record { stream = new.stream; failed = new.failed });
    } };

    ghost piece = { λ s. slice_range s.bytes.items s.begin s.start };

    fn pull(&mut self, most: usize) -> Result<(), SourceFault> {
        if self.failed {
            return Err(SourceFault);
        }
        if self.start == self.end {
            self.fill()?;
        }
        self.give(most);
        Ok(())
    }

    fn piece(&self) -> &[u8] {
        &self.bytes[self.begin..self.start]
    }
}
