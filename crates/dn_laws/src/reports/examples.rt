// Worked reports.
ghost use Rattle.std.specs.Prelude.{◌≡◌, true, false, None, Some, pos, negsuc, [], ◌∷◌, ◌++◌, codes, flat_map};
ghost use Rattle.dn_line.specs.declared.kind.Kind.{Kind};
ghost use Rattle.dn_arc_theory.specs.declared.difference.How.{How};
ghost use Rattle.dn_instance.specs.Instances.{Sources, Queries, Coordinates};
ghost use Rattle.dn_instance.specs.declared.refusal.Place.TheVariants as Places;
ghost use Rattle.dn_instance.specs.declared.verdict.Verdict.{Verdict};
ghost use Rattle.dn_laws.specs.State.DifferenceExamples.{flow_from, with_costs, with_lengths, costs_of, lengths_at};
ghost use Rattle.dn_laws.specs.State.DifferenceExamples.{some_costs, some_lengths, worked_capacities};
ghost use Rattle.dn_sink.specs.Rows.{line_text, text_of};
ghost use Rattle.dn_report.specs.Shows.{IsShown};
ghost use Rattle.dn_report.specs.Checks.{checked_rows};
ghost use Rattle.dn_report.specs.FaultLines.{fault_line, reason_text, unfit_line};
ghost use Rattle.dn_report.specs.Verdicts.{verdict_row};

use dn_instance::{CompanionFault, Refusal};
use dn_line::Code;

/// Pairs are printed by ascending pair, with what their arcs mean, and `lines` counts all arcs. An arc that carries
/// nothing makes no pair.
pub fn shown()
    ensures lengths { IsShown (with_lengths some_lengths)
        (codes "kind sp\nnodes 3\nlines 3\npairs 2\npair 1 2 length 3\npair 2 1 length 4\n") }
    ensures capacities { IsShown (flow_from (pos 1) (pos 3) worked_capacities)
        (codes "kind max\nnodes 3\nlines 4\nsource 1\nsink 3\npairs 2\npair 1 2 total 9\npair 1 3 total 2\n") }
    ensures costs { IsShown (with_costs some_costs)
        (codes "kind min\nnodes 2\nlines 3\nsupplies 0\npairs 1\npair 1 2 forced 3 cost -12 steps 2\n") }
    ensures sources { IsShown (Sources (pos 5 ∷ pos 2 ∷ pos 5 ∷ [])) (codes "kind ss\nlines 3\n") }
    ensures queries { IsShown (Queries ((pos 1, pos 9) ∷ [])) (codes "kind p2p\nlines 1\n") }
    ensures points { IsShown (Coordinates []) (codes "kind co\nlines 0\n") }
{}

/// A text alone, canonical in both forms or only in form 2, and a text with a companion, canonical in neither form.
pub fn checked()
    ensures both { text_of (checked_rows Kind.Min None (record { one = true; two = true }))
        ≡ codes "accepted min\nforms 1 2\n" }
    ensures second { text_of (checked_rows Kind.Min None (record { one = false; two = true }))
        ≡ codes "accepted min\nforms 2\n" }
    ensures with_companion { text_of (checked_rows Kind.Sp (Some Kind.Ss) (record { one = false; two = false }))
        ≡ codes "accepted sp\nfits ss\nforms none\n" }
{}

/// Verdicts, each of a sort; the left side comes first.
pub fn verdicts()
    ensures same { line_text (verdict_row Verdict.Same) ≡ codes "same\n" }
    ensures kinds { line_text (verdict_row (Verdict.Kind Kind.Sp Kind.Max)) ≡ codes "differ kind sp max\n" }
    ensures nodes { line_text (verdict_row (Verdict.Nodes (pos 3) (pos 4))) ≡ codes "differ nodes 3 4\n" }
    ensures supply { line_text (verdict_row (Verdict.Supply (pos 2) (pos 1) (negsuc 0)))
        ≡ codes "differ supply 2 1 -1\n" }
    ensures source { line_text (verdict_row (Verdict.Source (pos 1) (pos 2))) ≡ codes "differ source 1 2\n" }
    ensures sink { line_text (verdict_row (Verdict.Sink (pos 3) (pos 2))) ≡ codes "differ sink 3 2\n" }
    ensures length_at { line_text (verdict_row (lengths_at (pos 2) (pos 2) (Some (pos 0)) None))
        ≡ codes "differ pair 2 2 length 0 none\n" }
    ensures capacity { line_text (verdict_row (Verdict.Pair (pos 1) (pos 2) (How.Totals (pos 9) (pos 7))))
        ≡ codes "differ pair 1 2 capacity 9 7\n" }
    ensures cost { line_text (verdict_row (costs_of (pos 3) None (Some (pos 12))))
        ≡ codes "differ pair 1 2 amount 3 cost none 12\n" }
    ensures lengths { line_text (verdict_row (Verdict.Length 3 2)) ≡ codes "differ length 3 2\n" }
    ensures item { line_text (verdict_row (Verdict.Item 2)) ≡ codes "differ item 2\n" }
    ensures point { line_text (verdict_row (Verdict.Point (pos 1))) ≡ codes "differ point 1\n" }
{}

/// Lines of refusals, and of companions that do not fit.
pub fn fault_lines()
    ensures line { fault_line (codes "n.max") (Refusal.Text (Places.Line 5) Code.SumTooLarge)
        ≡ codes "n.max:5: 17 SumTooLarge\n" }
    ensures end { fault_line (codes "-") (Refusal.Text Places.End Code.NoProblem) ≡ codes "-:end: 18 NoProblem\n" }
    ensures read { fault_line (codes "missing") Refusal.Read ≡ codes "missing: 31 Read\n" }
    ensures memory { fault_line (codes "dnorm") Refusal.Memory ≡ codes "dnorm: 30 Memory\n" }
    ensures endless { fault_line (codes "tty") Refusal.Endless ≡ codes "tty: 32 Endless\n" }
    ensures write { fault_line (codes "g.gr") Refusal.Write ≡ codes "out: 33 Write\n" }
    ensures too_large { fault_line (codes "g.min") Refusal.CountTooLarge ≡ codes "g.min: 34 CountTooLarge\n" }
    ensures node { unfit_line (codes "c.co") (CompanionFault.NotInGraph (pos 4)) ≡ codes "c.co: 35 NotInGraph 4\n" }
    ensures unfit { unfit_line (codes "s.ss") CompanionFault.NotKinds ≡ codes "s.ss: 36 NotKinds\n" }
{}

/// The numbers and the names of all faults of texts.
pub fn faults()
    ensures of_lines { flat_map (λ code. reason_text (Refusal.Text Places.End code)) (Code.BadLine ∷ Code.EarlyLine
        ∷ Code.SecondProblem ∷ Code.UnknownProblem ∷ Code.WrongLine ∷ Code.LateNode ∷ Code.TooManyLines ∷ [])
        ≡ codes ": 1 BadLine\n: 2 EarlyLine\n: 3 SecondProblem\n: 4 UnknownProblem\n: 5 WrongLine\n: 6 LateNode\n"
        ++ codes ": 7 TooManyLines\n" }
    ensures of_fields { flat_map (λ code. reason_text (Refusal.Text Places.End code)) (Code.FieldCount
        ∷ Code.NotANumber ∷ Code.OutOfRange ∷ Code.Negative ∷ Code.BadTerminal ∷ [])
        ≡ codes ": 8 FieldCount\n: 9 NotANumber\n: 10 OutOfRange\n: 11 Negative\n: 12 BadTerminal\n" }
    ensures of_items { flat_map (λ code. reason_text (Refusal.Text Places.End code)) (Code.NodeOutOfRange
        ∷ Code.RepeatedNode ∷ Code.SameTerminal ∷ Code.LowAboveCap ∷ Code.SumTooLarge ∷ [])
        ≡ codes ": 13 NodeOutOfRange\n: 14 RepeatedNode\n: 15 SameTerminal\n: 16 LowAboveCap\n: 17 SumTooLarge\n" }
    ensures of_texts { flat_map (λ code. reason_text (Refusal.Text Places.End code)) (Code.NoProblem
        ∷ Code.MissingTerminal ∷ Code.TooFewLines ∷ Code.TooLong ∷ [])
        ≡ codes ": 18 NoProblem\n: 19 MissingTerminal\n: 20 TooFewLines\n: 21 TooLong\n" }
{}
