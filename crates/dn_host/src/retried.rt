// Retries interrupted writes.
ghost use Rattle.std.specs.Io.{WritesAtMost};
ghost use Rattle.std.specs.Io.KnownBytes.{Keeps, WriteAppends};
ghost use Rattle.dn_host.specs.State.Devices.{FlushesOnce, Writes, rewriting};

use crate::device::{Device, write_retrying};
use std::io;
use std::io::Write;

/// A writer over a device that retries interrupted writes. A write fails after 2^64-1 interruptions.
#[derive(Drop)]
pub struct Retried<D> {
    /// The device.
    pub device: D,
}

impl<D: Device> Write for Retried<D> {
    ghost contents = { λ r. D.device.taken r.device };

    fn write(&mut self, bytes: &[u8]) -> io::Result<usize>
        ensures bound { WritesAtMost result bytes.now }
        ensures bytes { WriteAppends (D.device.taken self.old.device) (D.device.taken self.new.device)
            result bytes.now }
        ensures retries { Writes (rewriting D.device) self.old.device self.new.device bytes.now result }
    {
        write_retrying(&mut self.device, bytes)
    }

    fn flush(&mut self) -> io::Result<()>
        ensures bytes { Keeps (D.device.taken self.old.device) (D.device.taken self.new.device) }
        ensures flushes { FlushesOnce D.device self.old.device self.new.device result }
    {
        self.device.flush()
    }
}
