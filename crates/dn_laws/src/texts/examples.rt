// Worked examples of canonical texts.
ghost use Rattle.std.specs.Prelude.{◌≡◌, codes, pos, negsuc, [], ◌∷◌};
ghost use Rattle.dn_laws.specs.State.BundleExamples.{worked, worked_one, canon_in_two_alone};
ghost use Rattle.dn_instance.specs.Instances.{MaxFlow, ShortestPaths, Sources, Queries, Coordinates};
ghost use Rattle.dn_canon.specs.CanonInstances.{IsCanonInstance};
ghost use Rattle.dn_canon.specs.CanonTexts.{IsCanonOf};
ghost use Rattle.dn_laws.specs.State.TextExamples.{on_one_pair};
ghost use Rattle.dn_canon.specs.Prints.{print};

use dn_bundle::Form;

/// Printed instances: single spaces, shortest texts of numbers, and the source before the sink.
pub fn printed()
    ensures sp { print
        (ShortestPaths (record {
          nodes = pos 3;
          arcs = ((pos 1, pos 2), record { length = pos 3 }) ∷ ((pos 3, pos 1), record { length = negsuc 4 }) ∷ [];
        }))
        ≡ codes "p sp 3 2\na 1 2 3\na 3 1 -5\n" }
    ensures max { print
        (MaxFlow (pos 2) (pos 1) (record { nodes = pos 2; arcs = ((pos 2, pos 1), record { cap = pos 9 }) ∷ [] }))
        ≡ codes "p max 2 1\nn 2 s\nn 1 t\na 2 1 9\n" }
    ensures ss { print (Sources (pos 5 ∷ pos 2 ∷ pos 5 ∷ [])) ≡ codes "p aux sp ss 3\ns 5\ns 2\ns 5\n" }
    ensures p2p { print (Queries ((pos 9, pos 1) ∷ [])) ≡ codes "p aux sp p2p 1\nq 9 1\n" }
    ensures co { print (Coordinates ((pos 1, (pos 5, negsuc 5)) ∷ [])) ≡ codes "p aux sp co 1\nv 1 5 -6\n" }
{}

/// Three parallel arcs of a `min` problem with two forced units, and their canonical text in each form.
pub fn canonical_texts()
    ensures one { IsCanonOf Form.One
        (codes "p min 2 5\na 1 2 1 1 1\na 1 2 1 1 2\na 1 2 0 2 0\na 1 2 0 4 1\na 1 2 0 1 3\n") (on_one_pair worked) }
    ensures two { IsCanonOf Form.Two
        (codes "p min 2 4\na 1 2 0 2 0\na 1 2 1 5 1\na 1 2 1 1 2\na 1 2 0 1 3\n") (on_one_pair worked) }
{}

/// Instances that are canonical in one form only, and one whose arcs are out of order.
pub fn canonical_instances()
    ensures one { IsCanonInstance Form.One (on_one_pair worked_one) }
    ensures one_is_not_two { IsCanonInstance Form.Two (on_one_pair worked_one) → ⊥ }
    ensures two { IsCanonInstance Form.Two (on_one_pair canon_in_two_alone) }
    ensures two_is_not_one { IsCanonInstance Form.One (on_one_pair canon_in_two_alone) → ⊥ }
    ensures out_of_order { IsCanonInstance Form.One
        (ShortestPaths (record {
          nodes = pos 2;
          arcs = ((pos 2, pos 1), record { length = pos 0 }) ∷ ((pos 1, pos 2), record { length = pos 0 }) ∷ [];
        })) → ⊥ }
{}
