// Devices that take bytes.
ghost use Rattle.dn_host.specs.State.Devices.{DeviceFacts, FlushesOnce, Writes, rewriting};

use std::io;
use std::io::ErrorKind;

/// Takes bytes, or fails.
pub trait Device {
    /// How the device describes itself.
    ghost device: { DeviceFacts Self };

    /// Takes bytes from the beginning of `bytes`, and returns their count.
    fn write(&mut self, bytes: &[u8]) -> io::Result<usize>
        ensures { Writes device self.old self.new bytes.now result };

    /// Passes on the bytes that it has taken.
    fn flush(&mut self) -> io::Result<()>
        ensures { FlushesOnce device self.old self.new result };
}

/// Writes as `Device::write` does, and again after each interrupted write. Fails after 2^64-1 interruptions.
pub(crate) fn write_retrying<D: Device>(device: &mut D, bytes: &[u8]) -> io::Result<usize>
    ensures { Writes (rewriting D.device) device.old device.new bytes.now result }
{
    for _i in 0..u64::MAX {
        match device.write(bytes) {
            Err(error) if error.kind() == ErrorKind::Interrupted => {}
            answer => return answer,
        }
    }
    Err(io::Error::from(ErrorKind::Interrupted))
}
