// Guesses where the pairs of the next lines are in a table.

use dn_arc_lines::ArcLine;
use dn_bundle::Bundle;
use dn_table::Table;

// How many lines are guessed at once.
const LINES: usize = 32;

// Where the pairs of the next lines are likely to be. In a text whose lines are sorted, each pair is after the one
// before. In others, the pairs of many lines are looked for at once, so that none of them waits for the memory of
// another.
#[derive(Clone, Copy)]
pub(crate) struct Ahead {
    guesses: [usize; LINES],
    used: usize,
    misses: usize,
    near: usize,
    is_scattered: bool,
}

impl Ahead {
    // Returns the guess before the first line.
    pub(crate) fn new() -> Ahead {
        Ahead {
            guesses: [0; LINES],
            used: 0,
            misses: 0,
            near: 0,
            is_scattered: false,
        }
    }

    // Returns where the pair of the first of these lines is likely to be. Hint.
    pub(crate) fn next<B: Bundle>(&mut self, table: &Table<B>, lines: &[ArcLine]) -> usize {
        if LINES <= self.used {
            self.used = 0;
            self.is_scattered = 1 < self.misses;
            self.misses = 0;
            if self.is_scattered {
                guess(table, lines, &mut self.guesses);
            }
        }
        let near = match self.guesses.get(self.used) {
            Some(guess) if self.is_scattered => *guess,
            _ => self.near,
        };
        self.used = self.used.saturating_add(1);
        near
    }

    // Notes where the pair after that of the last line is. Hint.
    pub(crate) fn pass(&mut self, next: usize) {
        if next != self.near.saturating_add(1) {
            self.misses = self.misses.saturating_add(1);
        }
        self.near = next;
    }
}

// Looks for the pairs of these lines, a step for each of them at a time. Hint.
fn guess<B: Bundle>(table: &Table<B>, lines: &[ArcLine], guesses: &mut [usize; LINES]) {
    let mut room = table.len();
    *guesses = [0; LINES];
    for _ in 0..usize::BITS {
        let half = room / 2;
        if half == 0 {
            return;
        }
        for i in 0..LINES {
            if let Some(line) = lines.get(i) {
                guesses[i] = step(table, line, guesses[i], half);
            }
        }
        room -= half;
    }
}

// Returns the position that is `half` above this one if the pair there is not above that of the line. Hint.
#[inline(always)]
fn step<B: Bundle>(table: &Table<B>, line: &ArcLine, at: usize, half: usize) -> usize {
    let middle = at.saturating_add(half);
    match table.pairs_from(middle).next() {
        Some((pair, _)) => {
            let is_up = (pair.0 < line.tail) | ((pair.0 == line.tail) & (pair.1 <= line.head));
            if is_up { middle } else { at }
        }
        None => at,
    }
}
