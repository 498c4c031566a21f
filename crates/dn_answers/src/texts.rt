// Answers of instances, and of texts and their canonical texts.
ghost use Rattle.std.specs.Prelude.{ℕ, ◌-◌, ◌<◌, ◌^◌, List, length};
ghost use Rattle.dn_line.specs.Pieces.{lines};
ghost use Rattle.dn_instance.specs.Instances.{Instance};
ghost use Rattle.dn_instance.specs.Sameness.{IsSame};
ghost use Rattle.dn_instance.specs.Texts.{Reads};
ghost use Rattle.dn_instance.specs.Validity.{IsValid};
ghost use Rattle.dn_canon.specs.CanonTexts.{IsCanonOf};
ghost use Rattle.dn_answers.specs.Answers.{HaveSameAnswers, HasAnswersOf};

use dn_bundle::Form;

/// Valid instances that are the same problem have the same answers.
pub fn same_answers()
    ensures { (I J : Instance) → IsValid I → IsValid J → IsSame I J → HaveSameAnswers I J }
{}

/// Texts with the same canonical text have the same answers.
pub fn same_canonical_text(form: Form)
    ensures { (t u canon : List ℕ) (I J : Instance) → Reads t I → Reads u J → IsCanonOf form canon I
        → IsCanonOf form canon J → HaveSameAnswers I J }
{}

/// The canonical text of a text, of at most 2^63-2 lines, reads as exactly one instance, which has the same answers.
pub fn canonical_answers(form: Form)
    ensures { (t canon : List ℕ) (I : Instance) → Reads t I → IsCanonOf form canon I
        → length (lines canon) < 2 ^ 63 - 1 → HasAnswersOf I canon }
{}
