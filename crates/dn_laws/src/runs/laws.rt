// Laws of runs of the program.
ghost use Rattle.std.specs.Prelude.{◌≡◌, ◌⊎◌, ◌↔◌, ℕ, ◌≤◌, List, Option, Some};
ghost use Rattle.std.specs.Io.KnownBytes.{Appends};
ghost use Rattle.dn_line.specs.declared.code.Code.{Code};
ghost use Rattle.dn_instance.specs.declared.refusal.Place.{Place};
ghost use Rattle.dn_instance.specs.declared.verdict.Verdict.{Verdict};
ghost use Rattle.dn_instance.specs.Instances.{Instance};
ghost use Rattle.dn_instance.specs.Sameness.{IsSame};
ghost use Rattle.dn_instance.specs.Texts.{IsFirstFault, Reads};
ghost use Rattle.dn_canon.specs.CanonTexts.{IsCanonOf, IsTooLarge};
ghost use Rattle.dn_compare.specs.FirstDifference.{IsFirstDifference};
ghost use Rattle.dn_sink.specs.Rows.{line_text};
ghost use Rattle.dn_report.specs.Verdicts.{verdict_row};
ghost use Rattle.dn_command.specs.Commands.{Asked, Canon, Compare, plain_asked};
ghost use Rattle.dn_run.specs.State.Briefs.{in_brief};
ghost use Rattle.dn_run.specs.FilesRuns.{files_run, in_full};
ghost use Rattle.dn_run.specs.Runs.{CommandRun};
ghost use Rattle.dn_run.specs.State.NotAccepted.{NotAccepted};
ghost use Rattle.dn_run.specs.State.OutByStatus.{OutByStatus};
ghost use Rattle.dn_run.specs.Statuses.{EndsAs, RanPlain};
ghost use Rattle.dn_run.specs.Streams.{sink_run};
ghost use Rattle.dn_run.specs.Words.{Ran};

use dn_bundle::Form;
use dn_host::Files;
use dn_sink::Sink;

/// A command that ends with status 2 does not accept its texts, if their bytes are known.
pub fn not_accepted<O: Sink, E: Sink>()
    ensures command { (asked : Asked) (behind : List ℕ → Option (List ℕ)) (out_old out_new : O) (err_old err_new : E)
        → CommandRun (in_brief behind) (sink_run O.sink (out_old, out_new)) (sink_run E.sink (err_old, err_new)) asked 2
        → NotAccepted behind asked }
    ensures words { (words : List (List ℕ)) (asked : Asked) (behind : List ℕ → Option (List ℕ)) (out_old out_new : O)
        (err_old err_new : E)
        → plain_asked words ≡ Some asked
        → Ran words (in_brief behind) (sink_run O.sink (out_old, out_new)) (sink_run E.sink (err_old, err_new)) 2
        → NotAccepted behind asked }
{}

/// A run that ends with status 0 or 1 has passed on all that `out` took, and `out` has not failed in it. On 2 and 3
/// `out` is unchanged.
pub fn out_by_status<O: Sink, E: Sink>()
    ensures { (words : List (List ℕ)) (behind : List ℕ → Option (List ℕ)) (out_old out_new : O) (err_old err_new : E)
        (status : ℕ)
        → Ran words (in_brief behind) (sink_run O.sink (out_old, out_new)) (sink_run E.sink (err_old, err_new)) status
        → OutByStatus (sink_run O.sink (out_old, out_new)) status }
{}

/// A run that is described in full, as the clause `also` of `run` does, is one of which only the answer is said, and
/// for the words of a plain command it ends in one of the ways that its exit status tells.
pub fn in_brief_of_full<F: Files, O: Sink, E: Sink>()
    ensures brief { (old new : F) (words : List (List ℕ)) (out_old out_new : O) (err_old err_new : E) (status : ℕ)
        → Ran words (in_full (files_run F.files F.Text.source (old, new))) (sink_run O.sink (out_old, out_new))
        (sink_run E.sink (err_old, err_new)) status
        → Ran words (in_brief (F.files.behind old)) (sink_run O.sink (out_old, out_new))
        (sink_run E.sink (err_old, err_new)) status }
    ensures plain { (words : List (List ℕ)) (behind : List ℕ → Option (List ℕ)) (out_old out_new : O)
        (err_old err_new : E) (status : ℕ)
        → Ran words (in_brief behind) (sink_run O.sink (out_old, out_new)) (sink_run E.sink (err_old, err_new)) status
        → RanPlain words behind (sink_run O.sink (out_old, out_new)) (sink_run E.sink (err_old, err_new)) status }
{}

/// How the command `canon` ends if the bytes behind its name are known. Status 0: they read as an instance, and `out`
/// took its canonical text. Status 2: they have a first fault, or the canonical text is too large, and `out` is
/// unchanged. Or status 4.
pub fn canon_by_status<O: Sink, E: Sink>(form: Form)
    ensures { (name b : List ℕ) (behind : List ℕ → Option (List ℕ)) (out_old out_new : O) (err_old err_new : E)
        (status : ℕ) → behind name ≡ Some b
        → EndsAs behind (sink_run O.sink (out_old, out_new)) (sink_run E.sink (err_old, err_new)) (Canon name form)
        status
        → ((status ≡ 0) × ((I : Instance) × (Reads b I × ((t : List ℕ) × (IsCanonOf form t I
        × Appends (O.sink.taken out_old) (O.sink.taken out_new) t)))))
        ⊎ (((status ≡ 2) × ((out_new ≡ out_old) × (((p : Place) × ((c : Code) × IsFirstFault b p c))
        ⊎ ((I : Instance) × (Reads b I × IsTooLarge form I)))))
        ⊎ (status ≡ 4)) }
{}

/// How the command `compare` ends if the bytes behind both names are known. Status 0 or 1: both read as instances,
/// `out` took the line of their first difference, and the status is 0 exactly if they are the same problem. Status 2:
/// the left text has a first fault, or it reads as an instance and the right one has a first fault, and `out` is
/// unchanged. Or status 4.
pub fn compare_by_status<O: Sink, E: Sink>()
    ensures { (left right b c : List ℕ) (behind : List ℕ → Option (List ℕ)) (out_old out_new : O) (err_old err_new : E)
        (status : ℕ) → behind left ≡ Some b → behind right ≡ Some c
        → EndsAs behind (sink_run O.sink (out_old, out_new)) (sink_run E.sink (err_old, err_new)) (Compare left right)
        status
        → ((I : Instance) × ((J : Instance) × (Reads b I × (Reads c J × ((v : Verdict) × (IsFirstDifference I J v
        × (Appends (O.sink.taken out_old) (O.sink.taken out_new) (line_text (verdict_row v))
        × ((status ≤ 1) × ((status ≡ 0) ↔ IsSame I J)))))))))
        ⊎ (((status ≡ 2) × ((out_new ≡ out_old) × (((p : Place) × ((d : Code) × IsFirstFault b p d))
        ⊎ ((I : Instance) × (Reads b I × ((p : Place) × ((d : Code) × IsFirstFault c p d)))))))
        ⊎ (status ≡ 4)) }
{}
