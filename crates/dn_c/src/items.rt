// Copies what an instance holds beside its arcs: flows, source and sink, items and points.
ghost use Rattle.std.specs.Prelude.{◌≡◌, ◌≤◌, ◌<◌, ◌^◌, [], ◌∷◌, MatchOption, length, take, drop};
ghost use Rattle.dn_instance.specs.State.Helds.{Contents};
ghost use Rattle.dn_nodes.specs.State.Nodes.{Ascends};
ghost use Rattle.dn_c.specs.State.Items.{items_left, left_items, nodes_left, IsListed};

use crate::cursor::Cursor;
use dn_instance::{Held, View};
use dn_nodes::{NodeMap, Nodes};

/// What a line of an instance says beside its arcs: an ID and up to two numbers. Missing numbers are 0.
#[repr(C)]
#[derive(Clone, Copy, Drop)]
pub struct Item {
    pub id: i64,
    pub a: i64,
    pub b: i64,
}

// Returns an item with these numbers.
fn item_of(id: i64, a: i64, b: i64) -> Item
    ensures { result ≡ record { id = id; a = a; b = b } }
{
    Item { id, a, b }
}

// The items of an instance that are left from some cursor on.
#[derive(Drop)]
pub(crate) enum ItemsLeft<'a> {
    Flows(Nodes<'a, i64>),
    Points(Nodes<'a, (i64, i64)>),
    Ids(&'a [i64]),
    Pairs(&'a [(i64, i64)]),
    Terminals(Option<(i64, i64)>),
}

// Returns the nodes of a map that are left after a cursor.
fn nodes_after<'a, V: Drop>(map: &'a NodeMap<V>, cursor: &Cursor) -> Nodes<'a, V>
    ensures left { result ≡ nodes_left cursor.now map.now.entries }
    ensures ascending { Ascends map.now.entries }
{
    if cursor.within == 0 {
        map.iter()
    } else {
        map.after(&cursor.a)
    }
}

// Returns the elements of a list that are left after a cursor.
fn list_after<'a, T>(list: &'a [T], cursor: &Cursor) -> &'a [T]
    ensures left { result.now ≡ drop cursor.now.pairs list.now }
    ensures short { length list.now < 2 ^ 64 }
{
    if list.len() <= cursor.pairs {
        return &[];
    }
    &list[cursor.pairs..]
}

impl<'a> ItemsLeft<'a> {
    // Returns the items of a parsed instance that are left after a cursor.
    pub(crate) fn of(held: &'a Held, cursor: &Cursor) -> ItemsLeft<'a>
        ensures left { items_left result ≡ left_items held.now.contents cursor.now }
        ensures listed { IsListed held.now.contents }
    {
        match held.view() {
            View::Min { supplies, .. } => ItemsLeft::Flows(nodes_after(supplies, cursor)),
            View::Max { source, sink, .. } if cursor.pairs == 0 => {
                ItemsLeft::Terminals(Some((source, sink)))
            }
            View::Max { .. } | View::Sp { .. } => ItemsLeft::Terminals(None),
            View::Ss { items } => ItemsLeft::Ids(list_after(items, cursor)),
            View::P2p { items } => ItemsLeft::Pairs(list_after(items, cursor)),
            View::Co { points } => ItemsLeft::Points(nodes_after(points, cursor)),
        }
    }

    // Returns the next item, and goes behind it.
    fn next(&mut self) -> Option<Item>
        ensures { MatchOption result (items_left self.old ≡ [])
            (λ item. items_left self.old ≡ item ∷ items_left self.new) }
    {
        match self {
            ItemsLeft::Flows(nodes) => match nodes.next() {
                Some((id, flow)) => Some(item_of(id, *flow, 0)),
                None => None,
            },
            ItemsLeft::Points(nodes) => match nodes.next() {
                Some((id, point)) => Some(item_of(id, point.0, point.1)),
                None => None,
            },
            ItemsLeft::Ids(ids) => {
                let (id, rest) = ids.split_first()?;
                *ids = rest;
                Some(item_of(*id, 0, 0))
            }
            ItemsLeft::Pairs(pairs) => {
                let (pair, rest) = pairs.split_first()?;
                *pairs = rest;
                Some(item_of(pair.0, pair.1, 0))
            }
            ItemsLeft::Terminals(terminals) => match terminals.take() {
                Some(pair) => Some(item_of(pair.0, pair.1, 0)),
                None => None,
            },
        }
    }

    // Copies the items, as far as there is room, and moves the cursor, after which they are left, behind them. Returns
    // how many it copied.
    pub(crate) fn put(mut self, cursor: &mut Cursor, out: &mut [Item]) -> usize
        ensures copies { take result out.new ≡ take (length out.old) (items_left self.entry) }
        ensures fits { result ≤ length out.new }
        ensures behind { (contents : Contents) → IsListed contents
            → items_left self.entry ≡ left_items contents cursor.old
            → left_items contents cursor.new ≡ drop result (items_left self.entry) }
    {
        let room = out.len();
        for at in 0..room {
            match self.next() {
                Some(item) => {
                    *cursor = cursor.behind(&item.id);
                    out[at] = item;
                }
                None => return at,
            }
        }
        room
    }
}
