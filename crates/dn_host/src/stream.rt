// Streams of bytes.
ghost use Rattle.dn_host.specs.State.StreamReads.{ReadsStream};
ghost use Rattle.dn_host.specs.Streams.{StreamFacts};
ghost use Rattle.dn_host.specs.State.Failures.{retrying};

use std::io;
use std::io::ErrorKind;

/// Gives bytes, or fails.
pub trait Stream {
    /// How the stream describes itself.
    ghost stream: { StreamFacts Self };

    /// Writes the next bytes to the beginning of `into`, and returns their count. It is 0 only at the end, or if `into`
    /// is empty.
    fn read(&mut self, into: &mut [u8]) -> io::Result<usize>
        ensures { ReadsStream stream self.old self.new into.new result };
}

/// Reads as `Stream::read` does, and again after each interrupted read. Fails after 2^64-1 interruptions.
pub(crate) fn read_retrying<S: Stream>(stream: &mut S, into: &mut [u8]) -> io::Result<usize>
    ensures { ReadsStream (retrying S.stream) stream.old stream.new into.new result }
{
    for _i in 0..u64::MAX {
        match stream.read(into) {
            Err(error) if error.kind() == ErrorKind::Interrupted => {}
            answer => return answer,
        }
    }
    Err(io::Error::from(ErrorKind::Interrupted))
}
