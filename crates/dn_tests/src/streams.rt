// Streams that fail once are not tried again by what reads or writes them, though they would go on.

use dn_line::{ByteSource, FromRead, SourceFault};
use dn_sink::{Sink, SinkFault, ToWrite};
use std::io;
use std::io::{ErrorKind, Read, Write};

// A stream that fails once, at its first call, and then reads zeros and takes everything.
#[derive(Drop)]
struct FailsOnce {
    failed: bool,
}

impl FailsOnce {
    fn new() -> FailsOnce {
        FailsOnce { failed: false }
    }

    // Fails at the first call.
    fn call(&mut self) -> io::Result<()> {
        if self.failed {
            return Ok(());
        }
        self.failed = true;
        Err(io::Error::from(ErrorKind::Interrupted))
    }
}

impl Read for FailsOnce {
    fn read(&mut self, into: &mut [u8]) -> io::Result<usize> {
        self.call()?;
        into.fill(0);
        Ok(into.len())
    }
}

impl Write for FailsOnce {
    fn write(&mut self, buf: &[u8]) -> io::Result<usize> {
        self.call()?;
        Ok(buf.len())
    }

    fn flush(&mut self) -> io::Result<()> {
        self.call()
    }
}

// Returns the length of the next piece, which has at most four bytes.
fn next_len<S: ByteSource>(source: &mut S) -> Result<usize, SourceFault> {
    source.pull(4)?;
    Ok(source.piece().len())
}

// Returns the lengths of the next two pieces of a reader.
fn pulled<R: Read + Drop>(reader: R) -> [Result<usize, SourceFault>; 2] {
    let mut source = FromRead::new(reader);
    [next_len(&mut source), next_len(&mut source)]
}

#[test]
fn readers(rt: HostRuntime) {
    assert!(rt; pulled(FailsOnce::new()) == [Err(SourceFault), Err(SourceFault)]);
    assert!(rt; pulled(b"p".as_slice()) == [Ok(1), Ok(0)]);
}

#[test]
fn writers(rt: HostRuntime) {
    let mut sink = ToWrite::new(FailsOnce::new());
    let puts = [sink.put(b"x"), sink.put(b"x")];
    assert!(rt; puts == [Err(SinkFault), Err(SinkFault)]);
    let mut late = ToWrite::new(FailsOnce::new());
    let flushes = [late.flush(), late.flush()];
    assert!(rt; flushes == [Err(SinkFault), Err(SinkFault)]);
}
