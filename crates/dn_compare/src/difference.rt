// Computes the first difference between two parsed instances.
ghost use Rattle.std.specs.Prelude.{◌≡◌, ℤ, List};
ghost use Rattle.dn_instance.specs.State.Helds.{contents_kind, OfBoth, OfCo, OfMax, OfMin, viewed};
ghost use Rattle.dn_table.specs.State.Tables.{Lists};
ghost use Rattle.dn_compare.specs.FirstDifference.{IsFirstDifference};
ghost use Rattle.dn_compare.specs.State.Partings.{IsListVerdict, IsPairVerdict, IsVerdictOn};

use crate::parting::{Listed, first_item, first_parting};
use dn_bundle::{Bundle, Curve, Total};
use dn_instance::{Held, Table, Verdict, View};
use dn_nodes::NodeMap;

/// Returns the first difference between two parsed instances, in the order of the variants of `Verdict`: the first
/// variant that is true of them, at its least ID, pair or index. Returns `Same` if and only if they are the same
/// problem. Walks both instances once, in at most as many steps as they have entries together. Allocates nothing.
pub fn compare(left: &Held, right: &Held) -> Verdict
    ensures { OfBoth left.now right.now (λ I J. IsFirstDifference I J result) }
{
    if left.kind() != right.kind() {
        return Verdict::Kind {
            left: left.kind(),
            right: right.kind(),
        };
    }
    if left.nodes() != right.nodes() {
        return Verdict::Nodes {
            left: left.nodes(),
            right: right.nodes(),
        };
    }
    view_verdict(left.view(), right.view())
}

// Returns the verdict on two instances of the same kind and NODES.
fn view_verdict(left: View<'_>, right: View<'_>) -> Verdict
    requires { contents_kind (viewed left) ≡ contents_kind (viewed right) }
    ensures { IsVerdictOn (viewed left.entry) (viewed right.entry) result }
{
    match (left, right) {
        (
            View::Min {
                supplies: l,
                table: lt,
            },
            View::Min {
                supplies: r,
                table: rt,
            },
        ) => min_verdict(l, lt, r, rt),
        (
            View::Max {
                source: ls,
                sink: lt,
                table: l,
            },
            View::Max {
                source: rs,
                sink: rt,
                table: r,
            },
        ) => max_verdict((ls, lt), l, (rs, rt), r),
        (View::Sp { table: l }, View::Sp { table: r }) => pair_verdict(l, r),
        (View::Ss { items: l }, View::Ss { items: r }) => list_verdict(l, r),
        (View::P2p { items: l }, View::P2p { items: r }) => list_verdict(l, r),
        (View::Co { points: l }, View::Co { points: r }) => point_verdict(l, r),
        _ => Verdict::Same,
    }
}

// Returns the verdict on two `min` problems with the same NODES.
fn min_verdict(
    left: &NodeMap<i64>,
    left_table: &Table<Curve>,
    right: &NodeMap<i64>,
    right_table: &Table<Curve>,
) -> Verdict
    ensures { IsVerdictOn (OfMin left.now.entries left_table.now) (OfMin right.now.entries right_table.now) result }
{
    match first_parting(left.iter(), right.iter()) {
        Some((id, (left, right))) => Verdict::Supply { id, left, right },
        None => pair_verdict(left_table, right_table),
    }
}

// Returns the verdict on two `max` problems with the same NODES. `left` and `right` are the source and the sink of
// each.
fn max_verdict(
    left: (i64, i64),
    left_table: &Table<Total>,
    right: (i64, i64),
    right_table: &Table<Total>,
) -> Verdict
    ensures { IsVerdictOn (OfMax left.0 left.1 left_table.now) (OfMax right.0 right.1 right_table.now) result }
{
    if left.0 != right.0 {
        return Verdict::Source {
            left: left.0,
            right: right.0,
        };
    }
    if left.1 != right.1 {
        return Verdict::Sink {
            left: left.1,
            right: right.1,
        };
    }
    pair_verdict(left_table, right_table)
}

// Returns the verdict on two graphs that can differ only in their arcs.
fn pair_verdict<B: Bundle>(left: &Table<B>, right: &Table<B>) -> Verdict
    ensures { (xs ys : List ((ℤ × ℤ) × B.Arc))
        → Lists B.bundle left.now xs → Lists B.bundle right.now ys
        → IsPairVerdict B.bundle.kind B.bundle.Differ xs ys result }
{
    match first_parting(left.pairs(), right.pairs()) {
        Some(((src, dst), how)) => Verdict::Pair { src, dst, how },
        None => Verdict::Same,
    }
}

// Returns the verdict on two lists.
fn list_verdict<T: Listed>(left: &[T], right: &[T]) -> Verdict
    ensures { IsListVerdict left.now right.now result }
{
    if left.len() != right.len() {
        return Verdict::Length {
            left: left.len() as u64,
            right: right.len() as u64,
        };
    }
    match first_item(left, right) {
        Some(index) => Verdict::Item { index },
        None => Verdict::Same,
    }
}

// Returns the verdict on the points of two companions.
fn point_verdict(left: &NodeMap<(i64, i64)>, right: &NodeMap<(i64, i64)>) -> Verdict
    ensures { IsVerdictOn (OfCo left.now.entries) (OfCo right.now.entries) result }
{
    match first_parting(left.iter(), right.iter()) {
        Some((id, ())) => Verdict::Point { id },
        None => Verdict::Same,
    }
}
