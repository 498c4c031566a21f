// Worked sources, which give one byte at each pull, and lines at which memory can run out.
ghost use Rattle.std.specs.Prelude.{[], codes};
ghost use Rattle.dn_line.specs.Pieces.{lines};
ghost use Rattle.dn_instance.specs.Readers.{WantsMemory};
ghost use Rattle.dn_instance.specs.SourceReads.{PulledWhileClean, RanOut, after_pulls};
ghost use Rattle.dn_laws.specs.State.SourceExamples.{bytewise};

/// Of a text whose first line has a fault, reading pulls the LF of this line, and nothing after it.
pub fn pulls()
    ensures to_fault { PulledWhileClean bytewise (codes "z\n\n") (codes "\n") }
    ensures no_more { PulledWhileClean bytewise (codes "z\n\n") [] → ⊥ }
{}

/// Memory can run out at an arc, also at one without an LF at the end of a text, and neither at a comment nor at a line
/// with a fault.
pub fn memory()
    ensures arc { WantsMemory 0 (lines (codes "p sp 2 1\na 1 2 3\n")) }
    ensures last_line { RanOut (codes "p sp 2 1\na 1 2 3") (after_pulls bytewise (codes "p sp 2 1\na 1 2 3") []) }
    ensures comment { WantsMemory 0 (lines (codes "c only\n")) → ⊥ }
    ensures fault { WantsMemory 0 (lines (codes "z\n")) → ⊥ }
{}
