// Hands out the texts of an opener by name.
ghost use Rattle.std.specs.Prelude.{◌≡◌, false, ◌≢◌, None, IfErr, IfOk};
ghost use Rattle.std.specs.IoError.{error_kind};
ghost use Rattle.dn_host.specs.Openers.{MayFault, Remains, behind_of};
ghost use Rattle.dn_host.specs.State.Failures.{MayFail};
ghost use Rattle.dn_host.specs.Takings.{KeepsOthers};

use crate::buffered::Buffered;
use crate::files::{Files, FilesFault};
use crate::opener::Opener;
use crate::stream::Stream;
use dn_instance::Held;
use dn_line::ByteSource;
use std::alloc::Global;
use std::io;
use std::io::ErrorKind;
use std::mem::forget;

/// The texts of an opener, by name. The name `-` is standard input.
#[derive(Drop)]
pub struct OpenedFiles<'a, P> {
    alloc: Global,
    /// The opener.
    pub opener: &'a mut P,
    /// Why no text was handed out when one was last asked for, if it was not.
    pub fault: Option<FilesFault>,
}

impl<'a, P> OpenedFiles<'a, P> {
    /// Returns the files of an opener, with no fault.
    pub fn new(alloc: Global, opener: &'a mut P) -> OpenedFiles<'a, P>
        ensures opener { result.opener.now ≡ opener.entry.now }
        ensures fault { result.fault ≡ None }
    {
        OpenedFiles {
            alloc,
            opener,
            fault: None,
        }
    }
}

/// The source of a text of an opener.
pub type OpenedSource<P> = Buffered<<P as Opener>::Stream>;

impl<'a, P: Opener> Files for OpenedFiles<'a, P> {
    type Text = OpenedSource<P>;

    ghost files = { record {
      behind = λ s name. behind_of P.opener s.opener.now name;
      fault = λ s _. s.fault;
      Faults = λ s. MayFault P.opener s.opener.now;
      Asks = λ old name new. P.opener.Opens old.opener.now name new.opener.now;
      Hands = λ s name t. (t.failed ≡ false) × Remains (behind_of P.opener s.opener.now name)
          (⟦<OpenedSource<P> as ByteSource>⟧.source.gives t);
      Backs = λ old _ _ new. new ≡ old;
    } };

    fn take(&mut self, name: &str) -> Result<Self::Text, FilesFault> {
        self.fault = None;
        match opened(self.alloc, self.opener, name) {
            Ok(source) => Ok(source),
            Err(error) => {
                let fault = fault_of(&error);
                self.fault = Some(fault);
                Err(fault)
            }
        }
    }

    fn give_back(&mut self, _name: &str, text: Self::Text) {
        drop(text);
    }

    // The program ends soon.
    fn release(&mut self, held: Held) {
        forget(held);
    }
}

// Opens the stream of a text.
fn stream_of<P: Opener>(opener: &mut P, name: &str) -> io::Result<P::Stream>
    ensures bytes { IfOk result (λ s. Remains (behind_of P.opener opener.old name.now) (P.Stream.stream.gives s)) }
    ensures fails { IfErr result (λ e. MayFail P.opener opener.old name.now (error_kind e)) }
    ensures opens { P.opener.Opens opener.old name.now opener.new }
    ensures keeps { KeepsOthers (behind_of P.opener opener.old) (behind_of P.opener opener.new) name.now }
{
    if name == "-" {
        Ok(opener.input())
    } else {
        opener.open(name)
    }
}

// Opens a text.
fn opened<P: Opener>(alloc: Global, opener: &mut P, name: &str) -> io::Result<OpenedSource<P>>
    ensures gives { IfOk result (λ t. Remains (behind_of P.opener opener.old name.now)
        (⟦<OpenedSource<P> as ByteSource>⟧.source.gives t)) }
    ensures fine { IfOk result (λ t. ⟦<OpenedSource<P> as ByteSource>⟧.source.has_failed t ≡ false) }
    ensures fails { IfErr result (λ e. MayFail P.opener opener.old name.now (error_kind e)) }
    ensures opens { P.opener.Opens opener.old name.now opener.new }
    ensures keeps { KeepsOthers (behind_of P.opener opener.old) (behind_of P.opener opener.new) name.now }
{
    let stream = stream_of(opener, name)?;
    Ok(Buffered::new(alloc, stream)?)
}

// Maps an error of opening to a `FilesFault`.
fn fault_of(error: &io::Error) -> FilesFault
    ensures device { result ≡ FilesFault.Device → error_kind error.now ≢ ErrorKind.OutOfMemory }
    ensures memory { result ≡ FilesFault.Memory → error_kind error.now ≡ ErrorKind.OutOfMemory }
{
    match error.kind() {
        ErrorKind::OutOfMemory => FilesFault::Memory,
        _ => FilesFault::Device,
    }
}
