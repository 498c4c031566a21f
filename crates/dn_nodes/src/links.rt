// Which value each node leads to.
ghost use Rattle.std.specs.Prelude.{◌≡◌, ◌<◌, ◌≤◌, ◌+◌, ◌++◌, ◌≤ℤ◌, ℕ, ℤ, pos, List, [], None, OnOk, OnErr, length, slice_get};
ghost use Rattle.std.specs.Ordering.{int_cmp};
ghost use Rattle.std.specs.Map.{lookup};
ghost use Rattle.std.specs.BTreeMap.{insert_entry};
ghost use Rattle.dn_nodes.specs.State.Nodes.{after, at, Ascends};
ghost use Rattle.dn_nodes.specs.State.Links.{direct, AreFar};

use crate::walk::LinksIter;
use std::alloc::{AllocError, Global};
use std::collections::BTreeMap;
use std::marker::Model;

// The list of links reaches up to this many nodes for each value, and 16 times as many beyond.
const DENSE: usize = 8;

/// The links of the nodes, by ascending node. Nodes below the length of `links` have their links there, where 0 is no
/// link. All other nodes are in a map. A node that the list comes to reach moves there, so both ways to find a node are
/// always there, and none is ever turned into the other as a whole. The list has at most 8 places for each node that
/// has a link, and 128 more, so its length never depends on the nodes' numbers.
#[derive(Drop)]
pub(crate) struct Links {
    links: Vec<usize>,
    above: BTreeMap<i64, usize>,
    // The number of nodes that have a link.
    count: usize,
}

impl Model for Links {
    ghost use Rattle.std.specs.Prelude.{ℕ, ℤ, List, ◌++◌, ◌≤◌, length};
    ghost use Rattle.dn_nodes.specs.State.Links.{direct, AreFar, IsShort};
    ghost use Rattle.dn_nodes.specs.State.Nodes.{Ascends};

    ghost Value = { List (ℤ × ℕ) };

    ghost view = { λ t. direct 0 t.links.items ++ t.above.entries };

    ghost invariant = { λ t. AreFar (length t.links.items) t.above.entries × Ascends t.above.entries
        × IsShort (length t.links.items) (length (direct 0 t.links.items ++ t.above.entries))
        × (t.count ≤ length (direct 0 t.links.items ++ t.above.entries)) };
}

// Returns the place of a node in a list of links.
fn place_of(node: &i64) -> usize
    requires { pos 0 ≤ℤ node.now }
    ensures { pos result ≡ node.now }
{
    *node as usize
}

// Returns the link at a place, if the list reaches there.
fn link_at(links: &[usize], place: usize) -> Option<usize>
    ensures { result ≡ slice_get links.now place }
{
    links.get(place).copied()
}

// Makes the list reach this node, and moves the nodes that it reaches from the map. If an allocation fails, nothing has
// changed.
fn reach(
    links: &mut Vec<usize>,
    above: &mut BTreeMap<i64, usize>,
    place: usize,
) -> Result<(), AllocError>
    requires beyond { length links.old.items ≤ place }
    requires far { AreFar (length links.old.items) above.old.entries }
    requires ascends { Ascends above.old.entries }
    ensures same { direct 0 links.new.items ++ above.new.entries ≡ direct 0 links.old.items ++ above.old.entries }
    ensures far { AreFar (length links.new.items) above.new.entries }
    ensures ascending { Ascends above.new.entries }
    ensures ok { OnOk result (length links.new.items ≡ place + 1) }
    ensures err_links { OnErr result (links.new.items ≡ links.old.items) }
    ensures err_above { OnErr result (above.new.entries ≡ above.old.entries) }
{
    let Some(len) = place.checked_add(1) else {
        return Err(AllocError);
    };
    links.resize(len, 0)?;
    while let Some((node, _)) = above.first_key_value() {
        if len <= place_of(node) {
            break;
        }
        let Some((node, link)) = above.pop_first() else {
            break;
        };
        let at = place_of(&node);
        links[at] = link;
    }
    Ok(())
}

impl Links {
    pub(crate) fn new(alloc: Global) -> Links
        ensures { result ≡ [] }
    {
        Links {
            links: Vec::new(alloc),
            above: BTreeMap::new(alloc),
            count: 0,
        }
    }

    /// Returns the link of a node.
    pub(crate) fn find(&self, node: &i64) -> Option<usize>
        ensures { result ≡ lookup (at node.now) self.now }
    {
        let links = &self.links;
        if *node < 0 {
            return None;
        }
        match link_at(links, place_of(node)) {
            Some(0) => None,
            Some(link) => Some(link),
            None => self.above.get(node).copied(),
        }
    }

    /// Iterates over the nodes with their links, by ascending node.
    pub(crate) fn iter(&self) -> LinksIter<'_>
        ensures { result ≡ self.now }
    {
        LinksIter::of(&self.links, &self.above)
    }

    /// Iterates over the nodes after this one with their links, by ascending node.
    pub(crate) fn after(&self, node: &i64) -> LinksIter<'_>
        ensures { result ≡ after node.now self.now }
    {
        LinksIter::after(node, &self.links, &self.above)
    }

    /// Notes the link of a node from 0 on that has none. If an allocation fails, nothing has changed.
    pub(crate) fn note(&mut self, node: &i64, link: usize) -> Result<(), AllocError>
        requires some { pos 0 ≤ℤ node.now }
        requires none { lookup (at node.now) self.old ≡ None }
        requires link { 0 < link }
        ensures ok { OnOk result (self.new ≡ insert_entry int_cmp self.old node.now link) }
        ensures err { OnErr result (self.new ≡ self.old) }
    {
        let place = place_of(node);
        let count = self.count.saturating_add(1);
        if self.links.len() <= place {
            if count.saturating_add(16) <= place / DENSE {
                self.above.insert(*node, link)?;
                self.count = count;
                return Ok(());
            }
            reach(&mut self.links, &mut self.above, place)?;
        }
        self.links[place] = link;
        self.count = count;
        Ok(())
    }
}
