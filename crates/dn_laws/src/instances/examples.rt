// Worked examples of texts: their first faults, instances and numbers of entries.
ghost use Rattle.std.specs.Prelude.{◌≡◌, codes, [], ◌∷◌, pos, negsuc};
ghost use Rattle.dn_instance.specs.State.InstanceEntries.{entries_of};
ghost use Rattle.dn_instance.specs.Instances.{MinCostFlow, MaxFlow, ShortestPaths, Sources, Queries, Coordinates};
ghost use Rattle.dn_instance.specs.Companions.{companion_fit};
ghost use Rattle.dn_instance.specs.Texts.{Reads, IsFirstFault};
ghost use Rattle.dn_laws.specs.State.DifferenceExamples.{supplied, with_lengths};

use dn_instance::{CompanionFault, Place};
use dn_line::Code;

/// First faults of one line, which show the order of checking.
pub fn faults_of_a_line()
    ensures bad_word { IsFirstFault (codes "pp sp 0 0\n") (Place.Line 1) Code.BadLine }
    ensures blank_lines_count { IsFirstFault (codes "\n \nz\n") (Place.Line 3) Code.BadLine }
    ensures unfinished_name { IsFirstFault (codes "p aux sp\n") (Place.Line 1) Code.UnknownProblem }
    ensures word_before_range { IsFirstFault (codes "p sp 9223372036854775808 x\n") (Place.Line 1) Code.NotANumber }
    ensures letter_before_node { IsFirstFault (codes "p max 2 1\nn 0 x\n") (Place.Line 2) Code.BadTerminal }
{}

/// Faults of the place of a line, of its number of words, and of its numbers.
pub fn faults_of_fields()
    ensures early { IsFirstFault (codes "a 1 2 3\n") (Place.Line 1) Code.EarlyLine }
    ensures wrong { IsFirstFault (codes "p sp 1 0\nn 1 5\n") (Place.Line 2) Code.WrongLine }
    ensures words { IsFirstFault (codes "p sp 1\n") (Place.Line 1) Code.FieldCount }
    ensures range { IsFirstFault (codes "p sp 9223372036854775808 0\n") (Place.Line 1) Code.OutOfRange }
    ensures negative { IsFirstFault (codes "p max 2 -1\n") (Place.Line 1) Code.Negative }
{}

/// Faults that depend on earlier lines.
pub fn faults_after_lines()
    ensures second_problem { IsFirstFault (codes "p sp 0 0\np sp 0 0\n") (Place.Line 2) Code.SecondProblem }
    ensures late_node { IsFirstFault (codes "p min 2 1\na 1 2 0 1 1\nn 1 5\n") (Place.Line 3) Code.LateNode }
    ensures late_before_fields { IsFirstFault (codes "p min 2 1\na 1 2 0 1 1\nn x\n") (Place.Line 3) Code.LateNode }
    ensures count_before_fields { IsFirstFault (codes "p aux sp ss 0\ns\n") (Place.Line 2) Code.TooManyLines }
    ensures too_many { IsFirstFault (codes "p sp 2 1\na 1 2 1\na 1 2\n") (Place.Line 3) Code.TooManyLines }
{}

/// Faults of nodes, terminals and capacities.
pub fn faults_of_items()
    ensures stray { IsFirstFault (codes "p sp 2 1\na 1 3 1\n") (Place.Line 2) Code.NodeOutOfRange }
    ensures repeated { IsFirstFault (codes "p max 2 1\nn 1 s\nn 2 s\n") (Place.Line 3) Code.RepeatedNode }
    ensures zero_flow_repeated { IsFirstFault (codes "p min 2 0\nn 1 0\nn 1 5\n") (Place.Line 3) Code.RepeatedNode }
    ensures same_terminal { IsFirstFault (codes "p max 2 1\nn 1 s\nn 1 t\n") (Place.Line 3) Code.SameTerminal }
    ensures low_above_cap { IsFirstFault (codes "p min 2 1\na 1 2 3 2 0\n") (Place.Line 2) Code.LowAboveCap }
{}

/// Faults of companions, and a sum in a `min` problem.
pub fn faults_by_kind()
    ensures id { IsFirstFault (codes "p aux sp ss 1\ns 0\n") (Place.Line 2) Code.NodeOutOfRange }
    ensures point { IsFirstFault (codes "p aux sp co 2\nv 7 0 0\nv 7 1 1\n") (Place.Line 3) Code.RepeatedNode }
    ensures sum { IsFirstFault (codes "p min 2 2\na 1 2 0 9223372036854775807 0\na 1 2 0 1 0\n")
        (Place.Line 3) Code.SumTooLarge }
{}

/// Faults of a sum and of the end of a text. The fault of the earliest line comes first.
pub fn faults_of_whole_texts()
    ensures sum { IsFirstFault (codes "p max 2 2\nn 1 s\nn 2 t\na 1 2 9223372036854775807\na 1 2 1\n")
        (Place.Line 5) Code.SumTooLarge }
    ensures no_problem { IsFirstFault (codes "c only\n\n") Place.End Code.NoProblem }
    ensures missing_terminal { IsFirstFault (codes "p max 2 1\nn 1 s\n") Place.End Code.MissingTerminal }
    ensures too_few { IsFirstFault (codes "p sp 2 2\na 1 2 1\n") Place.End Code.TooFewLines }
    ensures earliest { IsFirstFault (codes "p sp 1 1\na 1 1 x\nz\n") (Place.Line 2) Code.NotANumber }
{}

/// A `min` text with parallel arcs reads as its arcs in file order. A node line of flow 0 gives no supply.
pub fn read_min()
    ensures { Reads (codes "c forced units\np min 2 3\nn 2 0\nn 1 -7\na 1 2 1 3 0\na 1 2 1 2 3\na 1 2 0 4 1")
        (MinCostFlow ((pos 1, negsuc 6) ∷ []) (record {
          nodes = pos 2;
          arcs =
              ((pos 1, pos 2), record { low = pos 1; cap = pos 3; cost = pos 0 })
              ∷ ((pos 1, pos 2), record { low = pos 1; cap = pos 2; cost = pos 3 })
              ∷ ((pos 1, pos 2), record { low = pos 0; cap = pos 4; cost = pos 1 })
              ∷ [];
        })) }
{}

/// A `max` text and the three kinds of companions: terminals in either order, lists in file order, points by ascending
/// ID.
pub fn read_others()
    ensures max { Reads (codes "p max 2 1\nn 2 s\nn 1 t\na 1 2 0\n")
        (MaxFlow (pos 2) (pos 1) (record { nodes = pos 2; arcs = ((pos 1, pos 2), record { cap = pos 0 }) ∷ [] })) }
    ensures ss { Reads (codes "p aux sp ss 3\ns 5\ns 2\ns 5\n") (Sources (pos 5 ∷ pos 2 ∷ pos 5 ∷ [])) }
    ensures p2p { Reads (codes "p aux sp p2p 2\nq 9 1\nq 1 9\n") (Queries ((pos 9, pos 1) ∷ (pos 1, pos 9) ∷ [])) }
    ensures co { Reads (codes "p aux sp co 2\nv 3 -73530767 41085396\nv 1 5 -6\n")
        (Coordinates ((pos 1, (pos 5, negsuc 5)) ∷ (pos 3, (negsuc 73530766, pos 41085396)) ∷ [])) }
{}

/// The numbers of entries. One `min` pair with forced units and three costs with free capacity has four; seven `sp`
/// arcs at five pairs have five; two of three `max` arcs are parallel and the third carries nothing, so they have one.
pub fn entries()
    ensures min { entries_of (MinCostFlow [] (record {
      nodes = pos 2;
      arcs =
          ((pos 1, pos 2), record { low = pos 1; cap = pos 3; cost = pos 0 })
          ∷ ((pos 1, pos 2), record { low = pos 1; cap = pos 2; cost = pos 3 })
          ∷ ((pos 1, pos 2), record { low = pos 0; cap = pos 4; cost = pos 1 })
          ∷ [];
    }))
        ≡ 4 }
    ensures sp { entries_of (ShortestPaths (record {
      nodes = pos 3;
      arcs =
          ((pos 1, pos 2), record { length = pos 7 })
          ∷ ((pos 1, pos 2), record { length = pos 3 })
          ∷ ((pos 2, pos 1), record { length = pos 4 })
          ∷ ((pos 1, pos 2), record { length = pos 3 })
          ∷ ((pos 2, pos 2), record { length = pos 0 })
          ∷ ((pos 3, pos 1), record { length = negsuc 4 })
          ∷ ((pos 2, pos 3), record { length = pos 9 })
          ∷ [];
    }))
        ≡ 5 }
    ensures max { entries_of (MaxFlow (pos 1) (pos 3) (record {
      nodes = pos 3;
      arcs = ((pos 2, pos 3), record { cap = pos 0 }) ∷ ((pos 1, pos 2), record { cap = pos 4 })
          ∷ ((pos 1, pos 2), record { cap = pos 5 }) ∷ [];
    }))
        ≡ 1 }
{}

/// Companions of an `sp` graph of three nodes: one that fits, and the first node above 3 in the order of the file. No
/// graph is a companion, and other problems have none.
pub fn companions()
    ensures sources { companion_fit (with_lengths []) (Sources (pos 3 ∷ pos 1 ∷ [])) ≡ Ok tt }
    ensures queries { companion_fit (with_lengths []) (Queries ((pos 3, pos 5) ∷ (pos 4, pos 1) ∷ []))
        ≡ Err (CompanionFault.NotInGraph (pos 5)) }
    ensures points { companion_fit (with_lengths [])
        (Coordinates ((pos 4, (pos 0, pos 0)) ∷ (pos 9, (pos 0, pos 0)) ∷ []))
        ≡ Err (CompanionFault.NotInGraph (pos 4)) }
    ensures graph { companion_fit (with_lengths []) (with_lengths []) ≡ Err CompanionFault.NotKinds }
    ensures problem { companion_fit (supplied []) (Sources []) ≡ Err CompanionFault.NotKinds }
{}
