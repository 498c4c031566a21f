// Walking over nodes by ascending node.
ghost use Rattle.std.specs.Prelude.{◌≡◌, ◌≤◌, ◌≤ℤ◌, ◌<ℤ◌, ◌+ℤ◌, ◌-◌, ◌^◌, pos, ℕ, List, [], ◌++◌, length, drop};
ghost use Rattle.std.specs.Iterator.{YieldsFirst, item_count};
ghost use Rattle.dn_nodes.specs.State.Links.{lead, direct};
ghost use Rattle.dn_nodes.specs.State.Nodes.{after};

use std::collections::BTreeMap;
use std::collections::btree_map::Range;
use std::marker::Model;
use std::ops::Bound;

// Returns how many zeros the links begin with.
fn zeros(links: &[usize]) -> usize
    ensures zeros { result ≡ lead links.now }
    ensures within { result ≤ length links.now }
{
    let mut left = links;
    let mut skip = 0;
    while let [link, more @ ..] = left {
        if *link != 0 {
            break;
        }
        left = more;
        skip += 1;
    }
    skip
}

// Returns the node that is `skip` past another.
fn past(node: &i64, skip: usize) -> i64
    requires some { pos 0 ≤ℤ node.now }
    requires room { (node.now +ℤ pos skip) ≤ℤ pos (2 ^ 63 - 1) }
    ensures { result ≡ node.now +ℤ pos skip }
{
    *node + skip as i64
}

// Returns the least node from 0 on that follows a node.
fn place_after(node: &i64) -> usize
    ensures below { node.now <ℤ pos 0 → result ≡ 0 }
    ensures above { pos 0 ≤ℤ node.now → pos result ≡ node.now +ℤ pos 1 }
{
    if *node < 0 { 0 } else { *node as usize + 1 }
}

/// The remaining nodes with their links, by ascending node.
#[derive(Drop)]
pub(crate) struct LinksIter<'a> {
    node: i64,
    links: &'a [usize],
    above: Range<'a, i64, usize>,
}

impl<'a> Model for LinksIter<'a> {
    ghost use Rattle.std.specs.Prelude.{ℕ, ℤ, pos, List, ◌++◌, ◌≤ℤ◌, ◌+ℤ◌, ◌-◌, ◌^◌, length};
    ghost use Rattle.dn_nodes.specs.State.Links.{direct_from};

    ghost Value = { List (ℤ × ℕ) };

    ghost view = { λ t. direct_from t.node t.links.now ++ t.above };

    ghost invariant = { λ t. (pos 0 ≤ℤ t.node) × ((t.node +ℤ pos (length t.links.now)) ≤ℤ pos (2 ^ 63 - 1)) };
}

impl<'a> LinksIter<'a> {
    /// Iterates over a list of links from node 0 on, and a map.
    pub(crate) fn of(links: &'a [usize], above: &'a BTreeMap<i64, usize>) -> LinksIter<'a>
        ensures { result ≡ direct 0 links.now ++ above.now.entries }
    {
        LinksIter {
            node: 0,
            links,
            above: above.range(..),
        }
    }

    /// Iterates over what follows a node in a list of links from node 0 on, and in a map.
    pub(crate) fn after(
        node: &i64,
        links: &'a [usize],
        above: &'a BTreeMap<i64, usize>,
    ) -> LinksIter<'a>
        ensures { result ≡ after node.now (direct 0 links.now ++ above.now.entries) }
    {
        let first = place_after(node).min(links.len());
        LinksIter {
            node: first as i64,
            links: links.split_at(first).1,
            above: above.range((Bound::Excluded(node), Bound::Unbounded)),
        }
    }
}

impl<'a> Iterator for LinksIter<'a> {
    type Item = (i64, usize);

    ghost next_gives = { YieldsFirst (λ s. s) };

    ghost remaining = { item_count (λ s. s) };

    fn next(&mut self) -> Option<(i64, usize)> {
        let skip = zeros(self.links);
        let node = past(&self.node, skip);
        if let Some((link, links)) = self.links.split_at(skip).1.split_first() {
            self.node = past(&node, 1);
            self.links = links;
            return Some((node, *link));
        }
        self.links = &[];
        let (node, link) = self.above.next()?;
        Some((*node, *link))
    }
}
