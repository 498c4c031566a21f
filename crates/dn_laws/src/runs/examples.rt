// Worked runs, over an `out` and an `err` that keep all bytes and never fail. Those that read texts may end with status
// 4 instead, since memory can run out, and sources can fail.
ghost use Rattle.std.specs.Prelude.{◌≡◌, ℕ, List, [], ◌∷◌, Option, Some, codes};
ghost use Rattle.std.specs.IoError.{error_kind};
ghost use Rattle.std.specs.declared.io.Error.{Error};
ghost use Rattle.std.specs.declared.io.ErrorKind.TheVariants.{InvalidData};
ghost use Rattle.dn_run.specs.FilesRuns.{files_run, in_full};
ghost use Rattle.dn_run.specs.HostRuns.{NoWords};
ghost use Rattle.dn_run.specs.Words.{Ran};
ghost use Rattle.dn_laws.specs.State.RunExamples.{Gives, RunOf, took, two_texts};

use dn_host::Files;

/// A text with a fault gives one line on `err`, and nothing on `out`.
pub fn faulty_text()
    ensures { (out err : List ℕ) (status : ℕ)
        → RunOf (codes "check" ∷ codes "x.gr" ∷ []) (λ name. Some (codes "p sp 1\n")) out err status
        → Gives 2 [] (codes "x.gr:1: 8 FieldCount\n") out err status }
{}

/// A `min` text gives its canonical text on `out`, and nothing on `err`.
pub fn canonical_text()
    ensures { (out err : List ℕ) (status : ℕ)
        → RunOf (codes "canon" ∷ codes "x.min" ∷ [])
        (λ name. Some (codes "p min 2 3\na 1 2 1 3 0\na 1 2 1 2 3\na 1 2 0 4 1\n")) out err status
        → Gives 0 (codes "p min 2 5\na 1 2 1 1 1\na 1 2 1 1 2\na 1 2 0 2 0\na 1 2 0 4 1\na 1 2 0 1 3\n") [] out err
        status }
{}

/// Two texts that are not the same problem give their first difference on `out`, the left side first.
pub fn two_texts()
    ensures { (out err : List ℕ) (status : ℕ)
        → RunOf (codes "compare" ∷ codes "a" ∷ codes "b" ∷ [])
        (two_texts (codes "a") (codes "p sp 3 1\na 1 2 3\n") (codes "p sp 3 1\na 1 2 4\n")) out err status
        → Gives 1 (codes "differ pair 1 2 length 3 4\n") [] out err status }
{}

/// Words that name standard input for two texts give one line on `err`.
pub fn standard_input()
    ensures { (behind : List ℕ → Option (List ℕ)) (out err : List ℕ) (status : ℕ)
        → RunOf (codes "compare" ∷ codes "-" ∷ codes "-" ∷ []) behind out err status
        → Gives 3 [] (codes "dnorm: standard input named twice\n") out err status }
{}

/// Such words ask for no text. `show` of a text that is not standard input changes what is behind no name.
pub fn asked_texts<F: Files>()
    ensures none { (old new : F) (out err : List ℕ) (status : ℕ)
        → Ran (codes "dnorm" ∷ codes "compare" ∷ codes "-" ∷ codes "-" ∷ [])
        (in_full (files_run F.files F.Text.source (old, new))) (took out) (took err) status
        → new ≡ old }
    ensures one { (old new : F) (out err other : List ℕ) (status : ℕ)
        → Ran (codes "dnorm" ∷ codes "show" ∷ codes "x.gr" ∷ [])
        (in_full (files_run F.files F.Text.source (old, new))) (took out) (took err) status
        → F.files.behind new other ≡ F.files.behind old other }
{}

/// Words that are not UTF-8 give one line on `err`.
pub fn no_words()
    ensures { (error : Error) (out err : List ℕ) (status : ℕ)
        → error_kind error ≡ InvalidData → NoWords (took out) (took err) error status
        → Gives 3 [] (codes "dnorm: bad command line\n") out err status }
{}
