//! What runs of `canon` and `compare` say of answers.
ghost use Rattle.std.specs.Prelude.{◌≡◌, ℕ, List, Option, Some};
ghost use Rattle.dn_command.specs.Commands.{Canon, Compare, plain_asked};
ghost use Rattle.dn_run.specs.Statuses.{EndsAs, RanPlain};
ghost use Rattle.dn_run.specs.Streams.{sink_run};
ghost use Rattle.dn_answers.specs.Runs.{PosedSameAnswers, WroteAnswersOf};

use dn_bundle::Form;
use dn_sink::Sink;

/// If a run of `canon` ends with status 0, and the bytes behind the name are known, then they read as an instance, and
/// `out` took a text that, if it has at most 2^63-2 lines, reads as exactly one instance, which has the same answers.
pub fn canon_keeps_answers<O: Sink, E: Sink>(form: Form)
    ensures { (name b : List ℕ) (behind : List ℕ → Option (List ℕ)) (out_old out_new : O) (err_old err_new : E)
        → EndsAs behind (sink_run O.sink (out_old, out_new)) (sink_run E.sink (err_old, err_new)) (Canon name form) 0
        → behind name ≡ Some b
        → WroteAnswersOf (O.sink.taken out_old) (O.sink.taken out_new) b }
{}

/// If a run for words that are a plain form of `canon` ends with status 0, and the bytes behind the name are known,
/// `out` took a text of which `canon_keeps_answers` promises the same.
pub fn words_keep_answers<O: Sink, E: Sink>(form: Form)
    ensures { (words : List (List ℕ)) (name b : List ℕ) (behind : List ℕ → Option (List ℕ)) (out_old out_new : O)
        (err_old err_new : E)
        → plain_asked words ≡ Some (Canon name form)
        → RanPlain words behind (sink_run O.sink (out_old, out_new)) (sink_run E.sink (err_old, err_new)) 0
        → behind name ≡ Some b
        → WroteAnswersOf (O.sink.taken out_old) (O.sink.taken out_new) b }
{}

/// If a run of `compare` ends with status 0, and the bytes behind both names are known, then both read as instances,
/// and these have the same answers.
pub fn compared_same_answers<O: Sink, E: Sink>()
    ensures { (left right b c : List ℕ) (behind : List ℕ → Option (List ℕ)) (out_old out_new : O) (err_old err_new : E)
        → EndsAs behind (sink_run O.sink (out_old, out_new)) (sink_run E.sink (err_old, err_new)) (Compare left right) 0
        → behind left ≡ Some b → behind right ≡ Some c
        → PosedSameAnswers b c }
{}
