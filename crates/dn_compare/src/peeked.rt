// Walks over the entries of a table or a map, by ascending key.
ghost use Rattle.std.specs.Prelude.{◌≡◌};
ghost use Rattle.std.specs.BTreeMap.{is_at};
ghost use Rattle.std.specs.Option.{option_map};
ghost use Rattle.dn_compare.specs.State.Peeked.{after_key, first_key, lesser_key, value_at};

use crate::side::Side;
use std::cmp::Ordering;
use std::marker::Model;

// A walk over one side.
#[derive(Drop)]
pub(crate) struct Peeked<S: Side> {
    next: Option<(S::Key, S::Lent)>,
    rest: S,
}

impl<S: Side> Model for Peeked<S> {
    ghost use Rattle.std.specs.Prelude.{List};
    ghost use Rattle.dn_compare.specs.State.Peeked.{peeked_entries};

    ghost Value = { List (S.Key × S.Value) };

    ghost view = { λ w. peeked_entries S.value w.next (S.entries w.rest) };
}

impl<S: Side> Peeked<S> {
    // Returns a walk that begins at the least key.
    pub(crate) fn new(side: S) -> Peeked<S>
        ensures { result ≡ S.entries side }
    {
        let mut rest = side;
        let next = rest.next_entry();
        Peeked { next, rest }
    }

    // Returns the key of the next entry.
    pub(crate) fn key(&self) -> Option<S::Key>
        ensures { result ≡ first_key self.now }
    {
        match self.next {
            Some((key, _)) => Some(key),
            None => None,
        }
    }

    // Returns the value at this key and goes past it, if it is the next entry. Otherwise returns `None` and does not
    // move.
    pub(crate) fn take(&mut self, key: &S::Key) -> Option<S::Lent>
        ensures value { option_map S.value result ≡ value_at (is_at (S.Key.cmp key.now)) self.old }
        ensures rest { self.new ≡ after_key (is_at (S.Key.cmp key.now)) self.old }
    {
        let (at, value) = self.next?;
        match key.cmp(&at) {
            Ordering::Equal => {
                self.next = self.rest.next_entry();
                Some(value)
            }
            _ => None,
        }
    }
}

// Returns the lesser of two keys.
pub(crate) fn lesser<K: Ord + Copy>(left: Option<K>, right: Option<K>) -> Option<K>
    ensures { result ≡ lesser_key K.cmp left right }
{
    match (left, right) {
        (Some(left), Some(right)) => match left.cmp(&right) {
            Ordering::Less | Ordering::Equal => Some(left),
            Ordering::Greater => Some(right),
        },
        (Some(left), None) => Some(left),
        (None, right) => right,
    }
}
