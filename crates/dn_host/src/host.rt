// What the host opens, its words, and its standard output. No contract says which bytes these are.
ghost use Rattle.std.specs.Prelude.{◌≡◌, false, MatchOption, None};
ghost use Rattle.dn_host.specs.State.HostTexts.{text_remains};

use crate::device::Device;
use crate::opener::Opener;
use crate::retried::Retried;
use crate::stream::Stream;
use dn_sink::{Sink, ToWrite};
use std::alloc::Global;
use std::io::{BufWriter, Printer, Read, Write};
use std::rt::Runtime;
use std::{env, fs, io};

// The size in bytes of the buffer of standard output.
const BUFFER: usize = 65536;

/// Standard input, or an opened file.
#[derive(Drop)]
pub enum HostText<I, F> {
    /// Standard input.
    Input(I),
    /// A file.
    File(F),
}

impl<I: Read, F: Read> Stream for HostText<I, F> {
    ghost stream = { record { gives = text_remains I.remaining F.remaining; Fails = λ _ _ _. Unit {0} } };

    fn read(&mut self, into: &mut [u8]) -> io::Result<usize> {
        match self {
            HostText::Input(input) => input.read(into),
            HostText::File(file) => file.read(into),
        }
    }
}

/// Opens the files of the host, by their paths, and its standard input.
#[derive(Drop)]
pub struct HostOpener<'a, R> {
    /// The host.
    pub host: &'a R,
}

impl<'a, R: fs::Files + Input> Opener for HostOpener<'a, R> {
    type Stream = HostText<<R as Input>::Reader, <R as fs::Files>::File>;

    ghost opener = { record {
      file = λ _ _. None;
      input = λ _. None;
      Fails = λ _ _ _. Unit {0};
      Opens = λ _ _ _. Unit {0};
    } };

    fn open(&mut self, name: &str) -> io::Result<Self::Stream> {
        Ok(HostText::File(fs::open(self.host, name)?))
    }

    fn input(&mut self) -> Self::Stream {
        HostText::Input(self.host.reader())
    }
}

/// Collects the words of the command line, the program's name first. Fails with `InvalidData` if one is not UTF-8.
pub fn words_of<R: Runtime + AllocGlobal>(host: &R) -> io::Result<Vec<String>> {
    Ok(env::args(host)?.collect(host.alloc())?)
}

/// Standard output or standard error. It states which bytes the writer holds, and nothing about failures.
#[derive(Drop)]
pub struct HostDevice<W> {
    /// The writer.
    pub writer: W,
}

impl<W: Write> Device for HostDevice<W> {
    ghost device = { record {
      taken = λ d. W.contents d.writer;
      Takes = λ _ _ _ _. Unit {0};
      Fails = λ _ _ _. Unit {0};
      Flushes = λ _ _. Unit {0};
      FailsToFlush = λ _ _ _. Unit {0};
    } };

    fn write(&mut self, bytes: &[u8]) -> io::Result<usize> {
        self.writer.write(bytes)
    }

    fn flush(&mut self) -> io::Result<()> {
        self.writer.flush()
    }
}

/// A buffered sink over a device.
pub type Out<D> = ToWrite<BufWriter<Retried<D>>>;

/// The standard output of the host, buffered.
pub type HostOut<'a, R> = Out<HostDevice<Printer<'a, R>>>;

/// Returns a buffered sink over a device, or nothing if there is no memory for its buffer. Writes nothing.
pub fn buffered_over<D: Device + Drop>(alloc: Global, device: D) -> Option<Out<D>>
    ensures fine { MatchOption result (Unit {0}) (λ out. ⟦<Out<D> as Sink>⟧.sink.has_failed out ≡ false) }
    ensures taken { MatchOption result (Unit {0})
        (λ out. ⟦<Out<D> as Sink>⟧.sink.taken out ≡ D.device.taken device) }
{
    match BufWriter::with_capacity(alloc, BUFFER, Retried { device }) {
        Ok(buffer) => Some(ToWrite::new(buffer)),
        Err(_) => None,
    }
}

/// Returns a sink over a device, without a buffer. Writes nothing, and does not allocate.
pub fn plain_over<D: Device + Drop>(alloc: Global, device: D) -> Out<D>
    ensures fine { ⟦<Out<D> as Sink>⟧.sink.has_failed result ≡ false }
    ensures taken { ⟦<Out<D> as Sink>⟧.sink.taken result ≡ D.device.taken device }
{
    ToWrite::new(BufWriter::with_capacity(alloc, 0, Retried { device }).unwrap())
}

/// Returns the standard output of the host. If there is no memory for its buffer, it has none.
pub fn out_of<'a, R: Runtime + AllocGlobal>(host: &'a R) -> HostOut<'a, R>
    ensures { ⟦<HostOut<'a, R> as Sink>⟧.sink.has_failed result ≡ false }
{
    let device = HostDevice {
        writer: io::writer(host),
    };
    if let Some(out) = buffered_over(host.alloc(), device) {
        return out;
    }
    let plain = HostDevice {
        writer: io::writer(host),
    };
    plain_over(host.alloc(), plain)
}
