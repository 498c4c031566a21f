// Worked names of texts, and reads that fail.
ghost use Rattle.std.specs.Prelude.{◌≡◌, ℕ, ◌-◌, ◌^◌, List, Bool, true, Some, codes};
ghost use Rattle.std.specs.declared.io.ErrorKind.TheVariants.{Interrupted};
ghost use Rattle.dn_host.specs.declared.files.FilesFault.TheVariants.{Device};
ghost use Rattle.dn_host.specs.Openers.{MayFault, behind_of};
ghost use Rattle.dn_host.specs.Streams.{FailsAtLast, PullsStream};

use dn_host::opened_files::{OpenedFiles, OpenedSource};
use dn_host::{Files, Opener, Stream};
use dn_line::ByteSource;

/// The name `-` is standard input, which can always be opened; any other name is that of a file.
pub fn names<P: Opener>()
    ensures input { (o : P) → behind_of P.opener o (codes "-") ≡ P.opener.input o }
    ensures file { (o : P) → behind_of P.opener o (codes "./-") ≡ P.opener.file o (codes "./-") }
    ensures opened { (o : P) → MayFault P.opener o (codes "-") Device → ⊥ }
{}

/// A text that was handed out gives the bytes behind its name, if they are known.
pub fn handed<'a, P: Opener>(files: &OpenedFiles<'a, P>, text: &OpenedSource<P>)
    ensures { (name b : List ℕ) → ⟦<OpenedFiles<'a, P> as Files>⟧.files.Hands files.now name text.now
        → ⟦<OpenedFiles<'a, P> as Files>⟧.files.behind files.now name ≡ Some b
        → ⟦<OpenedSource<P> as ByteSource>⟧.source.gives text.now ≡ Some b }
{}

/// A source that has failed reads no more, and it fails with an interruption only after 2^64-1 of them.
pub fn failed_reads<S: Stream>()
    ensures stays { (old new : S) (failed : Bool)
        → PullsStream S.stream (record { stream = old; failed = true }) (record { stream = new; failed = failed })
        → new ≡ old }
    ensures interrupted { (old new : S) (reads : FailsAtLast S.stream old Interrupted new) → reads.n ≡ 2 ^ 64 - 1 }
{}
