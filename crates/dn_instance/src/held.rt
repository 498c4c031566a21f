// The parsed instance of a text.
ghost use Rattle.std.specs.Prelude.{◌≡◌};
ghost use Rattle.dn_instance.specs.State.InstanceEntries.{entries_of};
ghost use Rattle.dn_instance.specs.State.Helds.{contents_kind, pair_count, IsHeld, contents_of, viewed};
ghost use Rattle.dn_instance.specs.Instances.{Instance};
ghost use Rattle.dn_instance.specs.Validity.{IsValid};

use crate::body::Body;
use crate::view::View;
use dn_bundle::{Curve, Least, Total};
use dn_line::Kind;
use dn_nodes::NodeMap;
use dn_table::Table;
use std::marker::Model;

/// A parsed instance: the problem, graph or companion that a text reads as.
#[derive(Drop)]
pub struct Held {
    nodes: i64,
    lines: i64,
    // The nodes with an `n` line of a `min` text. One whose flow is 0 has no value.
    supplies: NodeMap<i64>,
    // The source and the sink of a `max` text.
    terminals: (i64, i64),
    body: Body<Table<Curve>, Table<Total>, Table<Least>>,
}

impl Model for Held {
    ghost use Rattle.std.specs.Coded.{codes};
    ghost use Rattle.dn_arc_theory.proofs.StoredLaws.{curve_code};
    ghost use Rattle.dn_instance.specs.State.Helds.{Parsed, contents_of};

    ghost Value = { Parsed };

    ghost coded = { Prim.hlevel (codes, curve_code) };

    ghost view = { λ h. record {
      nodes = h.nodes;
      lines = h.lines;
      contents = contents_of h.supplies.entries h.terminals h.body;
    } };
}

impl Held {
    // Returns a parsed instance with these NODES, this number of counted lines, these flows and terminals, and this
    // body.
    pub(crate) fn new(
        nodes: i64,
        lines: i64,
        supplies: NodeMap<i64>,
        terminals: (i64, i64),
        body: Body<Table<Curve>, Table<Total>, Table<Least>>,
    ) -> Held
        ensures nodes { result.nodes ≡ nodes }
        ensures lines { result.lines ≡ lines }
        ensures contents { result.contents ≡ contents_of supplies.entries terminals body }
    {
        Held {
            nodes,
            lines,
            supplies,
            terminals,
            body,
        }
    }

    /// Returns the kind of the text.
    pub fn kind(&self) -> Kind
        ensures { result ≡ contents_kind self.now.contents }
    {
        self.body.kind()
    }

    /// Returns NODES, or 0 for a companion.
    pub fn nodes(&self) -> i64
        ensures { result ≡ self.now.nodes }
    {
        self.nodes
    }

    /// Returns how many counted lines were read: the number of arcs, items or points.
    pub fn lines(&self) -> i64
        ensures { result ≡ self.now.lines }
    {
        self.lines
    }

    /// Returns how many ordered pairs have a bundle, or 0 for a companion.
    pub fn pairs(&self) -> u64
        ensures { result ≡ pair_count self.now.contents }
    {
        let pairs = match &self.body {
            Body::Min(table) => table.len(),
            Body::Max(table) => table.len(),
            Body::Sp(table) => table.len(),
            Body::Ss(_) | Body::P2p(_) | Body::Co(_) => 0,
        };
        pairs as u64
    }

    /// Returns how many entries the instance makes. An `sp` or `max` instance makes one for each pair that has a
    /// bundle. A `min` instance makes one for each pair with a LOW above 0, and one for each COST of a pair that has an
    /// arc of this COST whose CAP is above its LOW. A companion makes one for each item or point.
    pub fn entries(&self) -> u64
        ensures { (I : Instance) → IsValid I → IsHeld self.now I → result ≡ entries_of I }
    {
        // The proof needs the range of `lines`, which it knows where the field is read.
        let _lines = self.lines;
        match &self.body {
            Body::Min(table) => table.entries(),
            Body::Max(table) => table.entries(),
            Body::Sp(table) => table.entries(),
            Body::Ss(ids) => ids.len() as u64,
            Body::P2p(pairs) => pairs.len() as u64,
            Body::Co(points) => points.len() as u64,
        }
    }

    /// Returns a view of what the parsed instance holds.
    pub fn view(&self) -> View<'_>
        ensures { viewed result ≡ self.now.contents }
    {
        match &self.body {
            Body::Min(table) => View::Min {
                supplies: &self.supplies,
                table,
            },
            Body::Max(table) => View::Max {
                source: self.terminals.0,
                sink: self.terminals.1,
                table,
            },
            Body::Sp(table) => View::Sp { table },
            Body::Ss(items) => View::Ss { items },
            Body::P2p(items) => View::P2p { items },
            Body::Co(points) => View::Co { points },
        }
    }
}
