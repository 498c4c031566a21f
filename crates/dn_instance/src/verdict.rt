// Where two instances first differ.
ghost use Rattle.std.specs.Prelude.{◌≡◌};
ghost use Rattle.dn_instance.specs.State.Turned.{turned, turned_how};

use dn_bundle::{Gap, How};
use dn_line::Kind;

/// The first difference between two instances, in the order of the variants. `left` and `right` are the values of the
/// left and the right instance; they differ.
#[derive(Clone, Copy)]
pub enum Verdict {
    /// The instances are the same problem.
    Same,
    /// The kinds differ.
    Kind { left: Kind, right: Kind },
    /// The numbers of nodes differ. Range: 0 to 2^63-1.
    Nodes { left: i64, right: i64 },
    /// The flows of a node of `min` problems differ. A flow has 64 bits, and is 0 for a node without one. `id` is the
    /// least such node, from 1.
    Supply { id: i64, left: i64, right: i64 },
    /// The sources of `max` problems differ. They are IDs, from 1.
    Source { left: i64, right: i64 },
    /// The sinks of `max` problems differ. They are IDs, from 1.
    Sink { left: i64, right: i64 },
    /// The arcs from node `src` to node `dst` differ in meaning, as `how` says. This is the least such pair, by `src`
    /// and then by `dst`.
    Pair { src: i64, dst: i64, how: How },
    /// The numbers of items of `ss` or `p2p` lists differ.
    Length { left: u64, right: u64 },
    /// The items at this index of `ss` or `p2p` lists of the same length differ. `index` is the least such index,
    /// counted from 1.
    Item { index: u64 },
    /// The points of this ID differ, or only one companion has one. `id` is the least such ID, from 1.
    Point { id: i64 },
}

impl Verdict {
    /// Returns the verdict on the same two instances in the other order.
    pub fn turned(self) -> Verdict
        ensures { result ≡ turned self }
    {
        match self {
            Verdict::Same => Verdict::Same,
            Verdict::Kind { left, right } => Verdict::Kind {
                left: right,
                right: left,
            },
            Verdict::Nodes { left, right } => Verdict::Nodes {
                left: right,
                right: left,
            },
            Verdict::Supply { id, left, right } => Verdict::Supply {
                id,
                left: right,
                right: left,
            },
            Verdict::Source { left, right } => Verdict::Source {
                left: right,
                right: left,
            },
            Verdict::Sink { left, right } => Verdict::Sink {
                left: right,
                right: left,
            },
            Verdict::Pair { src, dst, how } => Verdict::Pair {
                src,
                dst,
                how: turned_how(how),
            },
            Verdict::Length { left, right } => Verdict::Length {
                left: right,
                right: left,
            },
            Verdict::Item { index } => Verdict::Item { index },
            Verdict::Point { id } => Verdict::Point { id },
        }
    }
}

// Returns how the arcs of a pair differ, with both sides exchanged.
fn turned_how(how: How) -> How
    ensures { result ≡ turned_how how }
{
    match how {
        How::Lengths { left, right } => How::Lengths {
            left: right,
            right: left,
        },
        How::Totals { left, right } => How::Totals {
            left: right,
            right: left,
        },
        How::Costs(gap) => How::Costs(Gap {
            amount: gap.amount,
            left: gap.right,
            right: gap.left,
        }),
    }
}
