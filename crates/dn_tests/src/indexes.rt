// Each way of finding pairs, compared with a scan of the list. Allocations may fail.

use pair_index::{AHEAD, PairIndex, position_among};
use std::alloc::{AllocError, Global};
use std::marker::Model;
use std::test::Fail;

// Entries, numbered in the order in which their pairs came, and their index.
#[derive(Drop)]
struct Listed {
    entries: Vec<((i64, i64), usize)>,
    index: PairIndex,
}

impl Model for Listed {
    ghost use Rattle.std.specs.Prelude.{ℕ, ℤ, List};
    ghost use Rattle.std.specs.Map.{keys_of};
    ghost use Rattle.pair_index.specs.State.Indexed.{Indexes};

    ghost Value = { List ((ℤ × ℤ) × ℕ) };

    ghost view = { λ t. t.entries.items };

    ghost invariant = { λ t. Indexes t.index (keys_of t.entries.items) };
}

impl Listed {
    fn new(alloc: Global) -> Listed {
        Listed {
            entries: Vec::new(alloc),
            index: PairIndex::new(),
        }
    }

    // Adds an entry for a pair, if it has none.
    fn take(&mut self, alloc: Global, pair: (i64, i64)) -> Result<(), AllocError> {
        if self.index.find(&self.entries, &pair).is_some() {
            return Ok(());
        }
        self.entries.reserve(1)?;
        self.index.note(alloc, &mut self.entries, &pair)?;
        let number = self.entries.len();
        Ok(self.entries.push((pair, number))?)
    }

    // Whether each of these pairs, and each pair with its nodes exchanged, is found where a scan finds it.
    fn finds(&mut self, pairs: &[(i64, i64)]) -> bool {
        for pair in pairs {
            for asked in [*pair, (pair.1, pair.0)] {
                let scanned = self.entries.iter().position(|entry| entry.0 == asked);
                if self.index.find(&self.entries, &asked) != scanned {
                    return false;
                }
            }
        }
        true
    }

    // Returns whether the pairs are found by links ("scattered") or not ("in order").
    fn way(&self) -> &'static str {
        if self.index.is_scattered(self.entries.len()) {
            "scattered"
        } else {
            "in order"
        }
    }

    // Whether the sorted entries ascend, and each pair has its entry among them.
    fn sorts(self, pairs: &[(i64, i64)]) -> bool {
        let Listed { mut entries, index } = self;
        index.sort(&mut entries);
        for i in 1..entries.len() {
            if entries[i].0 <= entries[i - 1].0 {
                return false;
            }
        }
        for i in 0..pairs.len() {
            match position_among(&entries, &pairs[i]) {
                Some(place) if entries[place].1 == i => {}
                _ => return false,
            }
        }
        entries.len() == pairs.len()
    }
}

// Returns the index of these pairs, or `None` if a pair is found at a wrong position. After an allocation failure the
// first pairs must still be found, and the second attempt must succeed.
fn index_of(alloc: Global, pairs: &[(i64, i64)]) -> Result<Option<Listed>, AllocError> {
    let mut listed = Listed::new(alloc);
    match list_all(alloc, pairs, &mut listed) {
        Ok(true) => Ok(Some(listed)),
        Ok(false) => {
            drop(listed);
            Ok(None)
        }
        Err(error) => {
            drop(listed);
            Err(error)
        }
    }
}

// Lists these pairs, and returns whether each was found at its position.
fn list_all(alloc: Global, pairs: &[(i64, i64)], listed: &mut Listed) -> Result<bool, AllocError> {
    for pair in pairs {
        if listed.take(alloc, *pair).is_err() {
            if !listed.finds(&pairs[..pairs.len().min(8)]) {
                return Ok(false);
            }
            listed.take(alloc, *pair)?;
        }
    }
    Ok(true)
}

// Returns how these pairs are found at the end, or what went wrong.
fn way_to_find(alloc: Global, pairs: &[(i64, i64)]) -> Result<&'static str, AllocError> {
    let Some(mut listed) = index_of(alloc, pairs)? else {
        return Ok("a wrong place after an allocation failure");
    };
    let way = listed.way();
    if listed.finds(pairs) && listed.sorts(pairs) {
        Ok(way)
    } else {
        Ok("a wrong place")
    }
}

// Pairs in groups of one tail: their size, and of what numbers the tails and the heads are multiples.
type Groups = (i64, i64, i64);

// Returns the pairs of these groups. Retries the allocation once if it fails.
fn pairs_of(alloc: Global, groups: Groups) -> Result<Vec<(i64, i64)>, AllocError> {
    let (size, tail, head) = groups;
    let mut pairs = match Vec::with_capacity(alloc, 150) {
        Ok(pairs) => pairs,
        Err(_) => Vec::with_capacity(alloc, 150)?,
    };
    for i in 0..150i64 {
        let group = i.checked_div(size).unwrap_or(0);
        pairs.push((tail.wrapping_mul(group), head.wrapping_mul(i)))?;
    }
    Ok(pairs)
}

// Returns `way_to_find` of the pairs of these groups.
fn way_to_find_groups(alloc: Global, groups: Groups) -> Result<&'static str, AllocError> {
    let pairs = pairs_of(alloc, groups)?;
    way_to_find(alloc, &pairs)
}

// A number whose multiples are scattered.
const SCATTERING: i64 = 0x1E37_79B9_7F4A_7C15;

// How the pairs of groups are found at the end: the size of the groups, and of what numbers their tails and their heads
// are multiples. Groups of more than 24 entries are linked, unless their heads ascend.
const GROUPS: [(i64, i64, i64, &str); 9] = [
    // Tails that ascend.
    (1, 1, 5, "in order"),
    // One tail, and groups of few and of many heads, whose tails ascend.
    (150, 1, -1, "in order"),
    (150, 1, SCATTERING, "in order"),
    (10, 1, SCATTERING, "in order"),
    (40, 1, SCATTERING, "in order"),
    // Tails that fall, one by one and in groups.
    (1, -1, 4, "scattered"),
    (40, -1, SCATTERING, "scattered"),
    // Tails that ascend and descend, near to each other and far apart.
    (1, SCATTERING, 1, "scattered"),
    (1, i64::MIN + 1, i64::MAX - 3, "scattered"),
];

#[test]
fn finds_groups(rt: HostRuntime) {
    for (size, tail, head, answer) in &GROUPS {
        let way = way_to_find_groups(rt.alloc(), (*size, *tail, *head));
        assert!(rt; way == Ok(*answer), "{size} of {tail} and {head}");
    }
}

// Returns how these pairs are found once each of them came again, or what went wrong. Looking up pairs together changes
// the way of finding.
fn way_to_find_again(alloc: Global, pairs: &[(i64, i64)]) -> Result<&'static str, AllocError> {
    let Some(mut listed) = index_of(alloc, pairs)? else {
        return Ok("a wrong place after an allocation failure");
    };
    if !listed.finds(pairs) {
        return Ok("a wrong place");
    }
    let way = listed.way();
    listed.index.hints(alloc, &listed.entries, &[(1, 5); AHEAD]);
    if listed.finds(pairs) && listed.sorts(pairs) {
        Ok(way)
    } else {
        Ok("a wrong place after the way has changed")
    }
}

#[test]
fn finds_again(rt: HostRuntime) -> Result<(), Fail> {
    let (size, tail, head, _) = GROUPS[0];
    let ascending = pairs_of(rt.alloc(), (size, tail, head))?;
    assert!(rt; way_to_find_again(rt.alloc(), &ascending) == Ok("scattered"));
    Ok(())
}

// Pairs whose tails ascend and descend, and that fall into one of 128 buckets.
const COLLIDING: [(i64, i64); 28] = [
    (70, 1000),
    (6, 940),
    (64, 148),
    (7, 44),
    (61, 1484),
    (11, 1044),
    (59, 280),
    (12, 136),
    (58, 92),
    (14, 392),
    (54, 1768),
    (15, 480),
    (53, 236),
    (16, 448),
    (45, 244),
    (18, 2168),
    (42, 2008),
    (21, 688),
    (41, 1180),
    (23, 488),
    (39, 408),
    (24, 80),
    (38, 104),
    (25, 960),
    (35, 1324),
    (28, 208),
    (33, 1052),
    (29, 580),
];

// Pairs that come nearly in order: each is followed by its reverse.
fn way_to_find_reversed(alloc: Global) -> Result<&'static str, AllocError> {
    let mut pairs = match Vec::with_capacity(alloc, 1200) {
        Ok(pairs) => pairs,
        Err(_) => Vec::with_capacity(alloc, 1200)?,
    };
    for i in 1..600i64 {
        pairs.push((i, i + 30))?;
        pairs.push((i + 30, i))?;
    }
    way_to_find(alloc, &pairs)
}

#[test]
fn finds_reversed(rt: HostRuntime) {
    assert!(rt; way_to_find_reversed(rt.alloc()) == Ok("scattered"));
}

#[test]
fn finds_colliding(rt: HostRuntime) {
    let few = way_to_find(rt.alloc(), &COLLIDING[..24]);
    let all = way_to_find(rt.alloc(), &COLLIDING);
    assert!(rt; (few, all) == (Ok("scattered"), Ok("in order")));
}
