// Values by node.
ghost use Rattle.std.specs.Prelude.{◌≡◌, ◌<◌, ◌≤ℤ◌, ◌^◌, pos, false, [], OnOk, OnErr, length};
ghost use Rattle.std.specs.Iterator.{YieldsFirstBy, item_count};
ghost use Rattle.std.specs.Option.{option_copied};
ghost use Rattle.dn_nodes.specs.State.Nodes.{Gains, Ascends, after, get, is_known, node_entry};
ghost use Rattle.dn_nodes.specs.State.Links.{linked};

use crate::links::Links;
use crate::walk::LinksIter;
use std::alloc::{AllocError, Global};
use std::marker::Model;

/// Some nodes from 0 on, by ascending node, with a value for each that has one. To find a node takes one step where the
/// nodes are dense from 0 on, and a path of an ordered map otherwise.
#[derive(Drop)]
pub struct NodeMap<V: Drop> {
    links: Links,
    values: Vec<V>,
}

impl<V: Drop> Model for NodeMap<V> {
    ghost use Rattle.std.specs.Prelude.{◌≡◌, length};
    ghost use Rattle.std.specs.Map.{keys_of};
    ghost use Rattle.dn_nodes.specs.State.Nodes.{Nodes, Ascends};
    ghost use Rattle.dn_nodes.specs.State.Links.{valued, AreWithin};

    ghost Value = { Nodes V };

    ghost view = { λ m. record { entries = valued m.links m.values.items; known = keys_of m.links } };

    ghost invariant = { λ m. Ascends m.links × AreWithin m.links m.values.items
        × (length (valued m.links m.values.items) ≡ length m.values.items) };
}

// Returns the value that a link leads to, if there is one.
fn value_of<V>(values: &[V], link: Option<usize>) -> Option<&V>
    ensures { option_copied result ≡ linked values.now link }
{
    values.get(link?.checked_sub(2)?)
}

impl<V: Drop> NodeMap<V> {
    /// Returns a map without nodes.
    pub fn new(alloc: Global) -> NodeMap<V>
        ensures entries { result.entries ≡ [] }
        ensures known { result.known ≡ [] }
    {
        NodeMap {
            links: Links::new(alloc),
            values: Vec::new(alloc),
        }
    }

    /// Returns whether the map has a node, with a value or without one.
    pub fn is_known(&self, node: &i64) -> bool
        ensures { result ≡ is_known self.now node.now }
    {
        self.links.find(node).is_some()
    }

    /// Returns the value of a node.
    pub fn get(&self, node: &i64) -> Option<&V>
        ensures { option_copied result ≡ get self.now node.now }
    {
        value_of(&self.values, self.links.find(node))
    }

    /// Returns how many nodes have a value.
    pub fn len(&self) -> usize
        ensures value { result ≡ length self.now.entries }
        ensures fits { length self.now.entries < 2 ^ 63 }
    {
        self.values.len()
    }

    /// Iterates over the nodes that have a value, by ascending node. This does not allocate.
    pub fn iter(&self) -> Nodes<'_, V>
        ensures value { result ≡ self.now.entries }
        ensures ascending { Ascends self.now.entries }
    {
        Nodes {
            links: self.links.iter(),
            values: &self.values,
        }
    }

    /// Iterates over the nodes after this one that have a value, by ascending node. This does not allocate.
    pub fn after(&self, node: &i64) -> Nodes<'_, V>
        ensures value { result ≡ after node.now self.now.entries }
        ensures ascending { Ascends self.now.entries }
    {
        let values = &self.values;
        Nodes {
            links: self.links.after(node),
            values,
        }
    }

    /// Adds a node from 0 on that the map does not have, with its value if it has one.
    ///
    /// # Errors
    ///
    /// Returns the error of the allocator if an allocation fails; then nothing has changed.
    pub fn insert(&mut self, node: &i64, value: Option<V>) -> Result<(), AllocError>
        requires some { pos 0 ≤ℤ node.now }
        requires none { is_known self.old node.now ≡ false }
        ensures ok { OnOk result (Gains self.old node.now value self.new) }
        ensures err { OnErr result (self.new ≡ self.old) }
    {
        let Some(value) = value else {
            self.links.note(node, 1)?;
            return Ok(());
        };
        self.values.reserve(1)?;
        self.links.note(node, self.values.len() + 2)?;
        self.values.push_reserved(value);
        Ok(())
    }
}

/// The remaining nodes of a map that have a value, by ascending node.
#[derive(Drop)]
pub struct Nodes<'a, V: Drop> {
    links: LinksIter<'a>,
    values: &'a [V],
}

impl<'a, V: Drop> Model for Nodes<'a, V> {
    ghost use Rattle.std.specs.Prelude.{ℤ, List};
    ghost use Rattle.dn_nodes.specs.State.Links.{valued};

    ghost Value = { List (ℤ × V) };

    ghost view = { λ n. valued n.links n.values.now };
}

impl<'a, V: Drop> Iterator for Nodes<'a, V> {
    type Item = (i64, &'a V);

    ghost next_gives = { YieldsFirstBy node_entry (λ s. s) };

    ghost remaining = { item_count (λ s. s) };

    fn next(&mut self) -> Option<(i64, &'a V)> {
        while let Some((node, link)) = self.links.next() {
            if let Some(value) = value_of(self.values, Some(link)) {
                return Some((node, value));
            }
        }
        None
    }
}
