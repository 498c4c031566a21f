// Opens texts.
ghost use Rattle.std.specs.Prelude.{IfErr, IfOk, codes};
ghost use Rattle.std.specs.IoError.{error_kind};
ghost use Rattle.dn_host.specs.Openers.{OpenerFacts, Remains, behind_of};
ghost use Rattle.dn_host.specs.Takings.{KeepsOthers};

use crate::stream::Stream;
use std::io;

/// Opens files by name, and standard input.
pub trait Opener {
    /// An opened text.
    type Stream: Stream + Drop;

    /// How the opener describes itself.
    ghost opener: { OpenerFacts Self };

    /// Opens the file of this name.
    fn open(&mut self, name: &str) -> io::Result<Self::Stream>
        ensures bytes { IfOk result (λ s. Remains (opener.file self.old name.now) (Self.Stream.stream.gives s)) }
        ensures fails { IfErr result (λ e. opener.Fails self.old name.now (error_kind e)) }
        ensures opens { opener.Opens self.old name.now self.new }
        ensures keeps { KeepsOthers (behind_of opener self.old) (behind_of opener self.new) name.now };

    /// Returns standard input.
    fn input(&mut self) -> Self::Stream
        ensures bytes { Remains (opener.input self.old) (Self.Stream.stream.gives result) }
        ensures opens { opener.Opens self.old (codes "-") self.new }
        ensures keeps { KeepsOthers (behind_of opener self.old) (behind_of opener self.new) (codes "-") };
}
