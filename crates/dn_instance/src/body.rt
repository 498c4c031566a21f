// Takes the rows of counted lines as they arrive.
ghost use Rattle.std.specs.Prelude.{◌≡◌, [], OnErr};
ghost use Rattle.dn_instance.specs.State.RowHeads.{counted_line};
ghost use Rattle.dn_instance.specs.State.TextParts.{BodyCounts, BodyHolds, IsSorted, body_kind};
ghost use Rattle.dn_instance.specs.State.Bodies.{Keeps, TakesRow};

use crate::ahead;
use crate::arcs::take_arc;
use crate::items::{insert_point, push_query, push_source};
use crate::refusal::ItemFault;
use dn_bundle::{CapArc, CostArc, Curve, Least, LengthArc, Total};
use dn_line::{Kind, Row, RowLine};
use dn_nodes::NodeMap;
use dn_table::{Table, TableSoFar};
use std::alloc::Global;

// What the counted lines of a text make, by kind: bundles by ordered pair, lists and points. While lines arrive, each
// arc is merged into the bundle of its pair at once; at the end, the bundles are sorted by pair.
#[derive(Drop)]
pub(crate) enum Body<C: Drop, T: Drop, L: Drop> {
    Min(C),
    Max(T),
    Sp(L),
    Ss(Vec<i64>),
    P2p(Vec<(i64, i64)>),
    Co(NodeMap<(i64, i64)>),
}

impl<C: Drop, T: Drop, L: Drop> Body<C, T, L> {
    // Returns the kind of the text.
    pub(crate) fn kind(&self) -> Kind
        ensures { result ≡ body_kind self.now }
    {
        match self {
            Body::Min(_) => Kind::Min,
            Body::Max(_) => Kind::Max,
            Body::Sp(_) => Kind::Sp,
            Body::Ss(_) => Kind::Ss,
            Body::P2p(_) => Kind::P2p,
            Body::Co(_) => Kind::Co,
        }
    }
}

impl Body<TableSoFar<Curve>, TableSoFar<Total>, TableSoFar<Least>> {
    // Makes the body of a problem line of this kind.
    pub(crate) fn new(
        alloc: Global,
        kind: &Kind,
    ) -> Body<TableSoFar<Curve>, TableSoFar<Total>, TableSoFar<Least>>
        ensures kind { body_kind result ≡ kind.now }
        ensures none { BodyHolds result [] }
    {
        match kind {
            Kind::Min => Body::Min(TableSoFar::new(alloc)),
            Kind::Max => Body::Max(TableSoFar::new(alloc)),
            Kind::Sp => Body::Sp(TableSoFar::new(alloc)),
            Kind::Ss => Body::Ss(Vec::new(alloc)),
            Kind::P2p => Body::P2p(Vec::new(alloc)),
            Kind::Co => Body::Co(NodeMap::new(alloc)),
        }
    }

    // Takes the row of the next counted line, or returns the fault of its item.
    #[inline(always)]
    pub(crate) fn take(&mut self, alloc: Global, nodes: &i64, row: &Row) -> Result<(), ItemFault>
        ensures taken { TakesRow (body_kind self.old) nodes.now (BodyHolds self.old) (BodyHolds self.new)
            (counted_line (body_kind self.old) row.now) result }
        ensures unchanged { OnErr result (Keeps (BodyHolds self.old) (BodyHolds self.new)) }
        ensures kept { body_kind self.new ≡ body_kind self.old }
    {
        let pair = (row.first, row.second);
        match self {
            Body::Min(table) => {
                let arc = CostArc {
                    low: row.third,
                    cap: row.fourth,
                    cost: row.fifth,
                };
                take_arc(table, alloc, nodes, pair, arc)
            }
            Body::Max(table) => take_arc(table, alloc, nodes, pair, CapArc { cap: row.third }),
            Body::Sp(table) => {
                take_arc(table, alloc, nodes, pair, LengthArc { length: row.third })
            }
            Body::Ss(ids) => push_source(ids, &row.first),
            Body::P2p(pairs) => push_query(pairs, pair),
            Body::Co(points) => insert_point(points, &row.first, (row.second, row.third)),
        }
    }

    // Looks up the pairs of the next rows together, if that saves time. Hint.
    pub(crate) fn look_ahead(&mut self, alloc: Global, rows: &[RowLine])
        ensures { self.new ≡ self.old }
    {
        match self {
            Body::Min(table) => ahead::look_ahead(table, alloc, rows),
            Body::Max(table) => ahead::look_ahead(table, alloc, rows),
            Body::Sp(table) => ahead::look_ahead(table, alloc, rows),
            Body::Ss(_) | Body::P2p(_) | Body::Co(_) => {}
        }
    }

    // Returns how many entries the rows so far make, if this is below 2^64.
    pub(crate) fn entries(&self) -> u64
        ensures { BodyCounts self.now result }
    {
        match self {
            Body::Min(table) => table.entries(),
            Body::Max(table) => table.entries(),
            Body::Sp(table) => table.entries(),
            Body::Ss(ids) => ids.len() as u64,
            Body::P2p(pairs) => pairs.len() as u64,
            Body::Co(points) => points.len() as u64,
        }
    }

    // Returns the body at the end of the text, with the bundles sorted by pair. This does not allocate.
    pub(crate) fn end(self) -> Body<Table<Curve>, Table<Total>, Table<Least>>
        ensures { IsSorted self result }
    {
        match self {
            Body::Min(table) => Body::Min(table.end()),
            Body::Max(table) => Body::Max(table.end()),
            Body::Sp(table) => Body::Sp(table.end()),
            Body::Ss(ids) => Body::Ss(ids),
            Body::P2p(pairs) => Body::P2p(pairs),
            Body::Co(points) => Body::Co(points),
        }
    }
}
