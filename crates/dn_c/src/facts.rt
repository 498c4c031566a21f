// What an instance is, in numbers, or what its text declares.
ghost use Rattle.std.specs.Prelude.{◌≡◌, length};
ghost use Rattle.dn_c.specs.State.Items.{listed_items};
ghost use Rattle.dn_c.specs.State.Facts.{kind_number, no_facts, declared_facts, parsed_facts, IsFacts};
ghost use Rattle.dn_c.specs.State.Reads.{shown_work};

use crate::shown::Shown;
use crate::work::Work;
use dn_instance::{Declared, Held, View};
use dn_line::Kind;

/// What an instance is, in numbers, or what its text declares.
#[repr(C)]
#[derive(Clone, Copy, Drop)]
pub struct Facts {
    /// 1 `min`, 2 `max`, 3 `sp`, 4 `ss`, 5 `p2p`, 6 `co`, or 0 if there is no instance and no problem line.
    pub kind: u8,
    /// NODES, or 0 for a companion.
    pub nodes: i64,
    /// How many counted lines the problem line declares: arcs, items or points. Those of an instance were all read.
    pub lines: i64,
    /// How many ordered pairs have canonical arcs, or 0 for a companion or a reader.
    pub pairs: u64,
    /// How many items the instance has beside its arcs, or 0 for a reader.
    pub items: u64,
}

/// Returns the number of a kind.
pub fn kind_number(kind: Kind) -> u8
    ensures { result ≡ kind_number kind }
{
    match kind {
        Kind::Min => 1,
        Kind::Max => 2,
        Kind::Sp => 3,
        Kind::Ss => 4,
        Kind::P2p => 5,
        Kind::Co => 6,
    }
}

/// Returns what the instance is, or what the problem line declares that a reader has read.
pub fn tell(handle: &Shown) -> Facts
    ensures { IsFacts (shown_work handle.now) result }
{
    match handle.get() {
        Some(Work::Read(held, _)) => parsed_facts(held),
        Some(Work::Reading(reader)) => declared_facts(reader.declared()),
        _ => no_facts(),
    }
}

// Returns what a parsed instance is.
fn parsed_facts(held: &Held) -> Facts
    ensures { result ≡ parsed_facts held.now }
{
    Facts {
        kind: kind_number(held.kind()),
        nodes: held.nodes(),
        lines: held.lines(),
        pairs: held.pairs(),
        items: item_count(held),
    }
}

// Returns how many items a parsed instance has beside its arcs.
fn item_count(held: &Held) -> u64
    ensures { result ≡ length (listed_items held.now.contents) }
{
    match held.view() {
        View::Min { supplies, .. } => supplies.len() as u64,
        View::Max { .. } => 1,
        View::Sp { .. } => 0,
        View::Ss { items } => items.len() as u64,
        View::P2p { items } => items.len() as u64,
        View::Co { points } => points.len() as u64,
    }
}

// Returns what a problem line declares, if there is one.
fn declared_facts(declared: Option<Declared>) -> Facts
    ensures { result ≡ declared_facts declared }
{
    match declared {
        Some(declared) => Facts {
            kind: kind_number(declared.kind),
            nodes: declared.nodes,
            lines: declared.lines,
            pairs: 0,
            items: 0,
        },
        None => no_facts(),
    }
}

/// Returns the facts of no instance.
pub fn no_facts() -> Facts
    ensures { result ≡ no_facts }
{
    Facts {
        kind: 0,
        nodes: 0,
        lines: 0,
        pairs: 0,
        items: 0,
    }
}
