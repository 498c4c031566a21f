// Puts what `check` and `compare` find in texts that were read.
ghost use Rattle.std.specs.Prelude.{◌≡◌, ℕ, List, Option};
ghost use Rattle.dn_instance.specs.State.Helds.{OfBoth};
ghost use Rattle.dn_instance.specs.State.ReaderResults.{OfText};
ghost use Rattle.dn_command.specs.Commands.{Check};
ghost use Rattle.dn_run.specs.Answers.{IsAnswerTo, OutAfter};
ghost use Rattle.dn_run.specs.State.Endings.{answer_of};
ghost use Rattle.dn_run.specs.State.Findings.{IsFound, PutsFinding, verdict_status};
ghost use Rattle.dn_run.specs.Findings.{AreForms, PutsChecked, PutsCompared};
ghost use Rattle.dn_run.specs.Streams.{sink_run};

use crate::stop::Stop;
use dn_bundle::Form;
use dn_canon::is_canon_of;
use dn_compare::{Verdict, compare};
use dn_instance::Held;
use dn_line::Kind;
use dn_report::{Forms, put_checked, put_verdict};
use dn_sink::Sink;

// Puts the kind of a text that was read, the kind of its companion if it has one, and the forms in which the text is
// canonical.
pub(crate) fn put_check<'a, O: Sink>(
    held: &Held,
    companion: Option<Kind>,
    text: &[u8],
    out: &mut O,
) -> Result<u8, Stop<'a>>
    ensures puts { OfText text.now held.now
        (λ I. PutsFinding (PutsChecked companion text.now I) (sink_run O.sink (out.old, out.new)) (answer_of result)) }
    ensures out_after { OutAfter (sink_run O.sink (out.old, out.new)) (answer_of result) }
    ensures answers { (name : List ℕ) (with : Option (List ℕ)) → IsAnswerTo (Check name with) (answer_of result) }
    ensures found { IsFound (answer_of result) }
{
    let forms = forms_of(held, text);
    match put_checked(out, held.kind(), companion, forms) {
        Ok(()) => Ok(0),
        Err(_) => Err(Stop::Cut),
    }
}

// Puts the first difference between two parsed instances, or that they are the same problem. Returns the exit status: 0
// if they are the same problem, and otherwise 1.
pub(crate) fn put_compared<'a, O: Sink>(
    left: &Held,
    right: &Held,
    out: &mut O,
) -> Result<u8, Stop<'a>>
    ensures puts { OfBoth left.now right.now
        (λ I J. PutsFinding (PutsCompared I J) (sink_run O.sink (out.old, out.new)) (answer_of result)) }
    ensures out_after { OutAfter (sink_run O.sink (out.old, out.new)) (answer_of result) }
    ensures found { IsFound (answer_of result) }
{
    let verdict = compare(left, right);
    match put_verdict(out, &verdict) {
        Ok(()) => Ok(verdict_status(&verdict)),
        Err(_) => Err(Stop::Cut),
    }
}

// Returns the exit status of a comparison.
fn verdict_status(verdict: &Verdict) -> u8
    ensures { result ≡ verdict_status verdict.now }
{
    match verdict {
        Verdict::Same => 0,
        _ => 1,
    }
}

// Returns the forms in which `text`, which reads as the instance in `held`, is its canonical text. The two forms differ
// for `min` only.
fn forms_of(held: &Held, text: &[u8]) -> Forms
    ensures { OfText text.now held.now (λ I. AreForms text.now I result) }
{
    let one = is_canon_of(held, text, Form::One);
    let two = match held.kind() {
        Kind::Min => is_canon_of(held, text, Form::Two),
        _ => one,
    };
    Forms { one, two }
}
