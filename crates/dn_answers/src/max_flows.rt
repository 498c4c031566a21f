// Flows in `max` graphs that mean the same.
ghost use Rattle.std.specs.Prelude.{◌↔◌, ℤ, List};
ghost use Rattle.std.specs.List.{AllByRecursion};
ghost use Rattle.dn_arc_theory.specs.declared.arc.CapArc.{CapArc};
ghost use Rattle.dn_arc_theory.specs.Canonical.{IsCapArc};
ghost use Rattle.dn_arc_theory.specs.Meanings.{SameTotal};
ghost use Rattle.dn_instance.specs.Instances.{Graph};
ghost use Rattle.dn_instance.specs.Sameness.{SameGraph};
ghost use Rattle.dn_answers.specs.MaxFlows.{IsFlow, HasMatchingFlow, HasValue, IsGreatestValue};

/// If two graphs mean the same, and the CAPs of H are at least 0, then for each flow of G, H has a flow with the same
/// units on each ordered pair.
pub fn same_flows()
    ensures { (source sink : ℤ) (G H : Graph CapArc) → SameGraph SameTotal G H
        → AllByRecursion (λ a. IsCapArc a.1) H.arcs → (flow : List ℤ) → IsFlow source sink G flow
        → HasMatchingFlow source sink G H flow }
{}

/// If two graphs mean the same, and all CAPs are at least 0, then flows have the same values in both, and the same
/// greatest value.
pub fn same_values()
    ensures values { (source sink : ℤ) (G H : Graph CapArc) → SameGraph SameTotal G H
        → AllByRecursion (λ a. IsCapArc a.1) G.arcs → AllByRecursion (λ a. IsCapArc a.1) H.arcs
        → (x : ℤ) → HasValue source sink G x ↔ HasValue source sink H x }
    ensures greatest { (source sink : ℤ) (G H : Graph CapArc) → SameGraph SameTotal G H
        → AllByRecursion (λ a. IsCapArc a.1) G.arcs → AllByRecursion (λ a. IsCapArc a.1) H.arcs
        → (x : ℤ) → IsGreatestValue source sink G x ↔ IsGreatestValue source sink H x }
{}
