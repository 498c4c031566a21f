// Puts a flow on canonical arcs back on arc lines.
ghost use Rattle.std.specs.Prelude.{◌≡◌, ◌≢◌, ◌⊎◌, ◌↔◌, ◌≤◌, ◌-◌, ◌^◌, ℤ, pos, ◌≤ℤ◌, List, [], ◌∷◌, length, take, drop, IfSome, IsSome, IsTrue, OnErr, OnOk};
ghost use Rattle.std.specs.List.{AllByRecursion, IsDistinct};
ghost use Rattle.std.specs.List.Sorted.{IsStrictlySortedBy};
ghost use Rattle.std.specs.Map.{keys_of};
ghost use Rattle.dn_arc_theory.specs.Pairs.{pair_cmp, same_pair};
ghost use Rattle.dn_arc_theory.specs.Splits.{total};
ghost use Rattle.dn_arc_theory.specs.State.Bundles.{meant};
ghost use Rattle.dn_arc_lines.specs.declared.arc_line.ArcLine.{ArcLine};
ghost use Rattle.dn_instance.specs.State.Helds.{pair_count};
ghost use Rattle.dn_flow.specs.State.Spreads.{AreAscending, AreLines, CanSpread, CanSpreadOn, IsCompanion, IsSpread, LacksRoom, Spreads, pair_of};
ghost use Rattle.dn_flow.specs.State.Givings.{AreBalanced, AreFilled, AreNone, Fills, Fits, Gives, GivesLine};

use crate::ahead::Ahead;
use crate::carries::Carries;
use crate::share::{PairShare, take};
use dn_arc_lines::ArcLine;
use dn_bundle::{Bundle, Form};
use dn_instance::{Held, View};
use dn_table::Table;

/// Why a flow is not put on arc lines.
#[derive(Clone, Copy, PartialEq, Eq)]
pub enum SpreadFault {
    /// The instance is a companion, and has no arcs.
    NoGraph,
    /// There are fewer shares than pairs, or not as many units as lines.
    NoRoom,
    /// The flow does not fit the pairs, or the lines are not those of the instance.
    NotAFlow,
}

/// Puts a flow on the canonical arcs of a graph back on the arc lines of its text. `flow` has the units of each arc in
/// the order of the canonical text in this form, and `units` gets those of each line. `shares` is room to work in, for
/// one share of each pair.
///
/// # Errors
///
/// Returns `NotAFlow` if the lines are not as many as the instance has, or not in the order of a text; if the flow does
/// not have as many numbers as there are arcs, or a negative one; or if the units of a pair are not between the sums of
/// the lower bounds and of the capacities of its lines. Returns `NoRoom` and `NoGraph` as they say. `units` may have
/// changed then.
pub fn spread(
    held: &Held,
    form: Form,
    flow: &[i64],
    lines: &[ArcLine],
    shares: &mut [PairShare],
    units: &mut [i64],
) -> Result<(), SpreadFault>
    ensures lines { OnOk result (AreLines held.now.lines lines.now) }
    ensures ok { OnOk result (Spreads form held.now.contents flow.now lines.now units.new) }
    ensures no_flow { (result ≡ Err SpreadFault.NotAFlow) → AreLines held.now.lines lines.now
        → CanSpreadOn form held.now.contents flow.now lines.now → ⊥ }
    ensures no_graph { (result ≡ Err SpreadFault.NoGraph) ↔ IsCompanion held.now.contents }
    ensures no_room { (result ≡ Err SpreadFault.NoRoom) → LacksRoom (pair_count held.now.contents) (length shares.old)
        (length lines.now) (length units.old) }
    ensures kept { OnErr result ((result ≡ Err SpreadFault.NotAFlow) ⊎ (units.new ≡ units.old)) }
{
    let count = held.lines();
    match held.view() {
        View::Min { table, .. } => spread_over(table, count, form, flow, lines, shares, units),
        View::Max { table, .. } => spread_over(table, count, form, flow, lines, shares, units),
        View::Sp { table } => spread_over(table, count, form, flow, lines, shares, units),
        _ => Err(SpreadFault::NoGraph),
    }
}

// Whether these are as many lines, in the order of a text.
fn are_lines(lines: &[ArcLine], count: i64) -> bool
    ensures { IsTrue result ↔ AreLines count lines.now }
{
    lines.len() as i128 == count as i128 && are_ascending(lines)
}

// Whether the numbers of the lines ascend.
fn are_ascending(lines: &[ArcLine]) -> bool
    ensures { IsTrue result ↔ AreAscending 0 lines.now }
{
    let mut last = 0;
    for line in lines {
        if line.line <= last {
            return false;
        }
        last = line.line;
    }
    true
}

// Puts a flow on the canonical arcs of a table back on arc lines.
fn spread_over<B: Carries>(
    table: &Table<B>,
    count: i64,
    form: Form,
    flow: &[i64],
    lines: &[ArcLine],
    shares: &mut [PairShare],
    units: &mut [i64],
) -> Result<(), SpreadFault>
    ensures lines { OnOk result (AreLines count lines.now) }
    ensures graph { result ≢ Err SpreadFault.NoGraph }
    ensures no_room { (result ≡ Err SpreadFault.NoRoom)
        → LacksRoom (length table.now) (length shares.old) (length lines.now) (length units.old) }
    ensures kept { (result ≡ Err SpreadFault.NoRoom) → units.new ≡ units.old }
    ensures ok { OnOk result (IsSpread (λ line. B.carried (B.line_arc line)) (B.bundle.listed form) table.now flow.now
        lines.now units.new) }
    ensures no_flow { (result ≡ Err SpreadFault.NotAFlow) → AreLines count lines.now
        → CanSpread B.bundle.kind B.line_arc B.carried (B.bundle.listed form)
        (meant B.bundle) table.now flow.now lines.now
        → ⊥ }
{
    if shares.len() < table.len() || units.len() != lines.len() {
        return Err(SpreadFault::NoRoom);
    }
    if !are_lines(lines, count) {
        return Err(SpreadFault::NotAFlow);
    }
    if !fill(table, form, flow, shares) {
        return Err(SpreadFault::NotAFlow);
    }
    if !give(table, lines, shares, units) {
        return Err(SpreadFault::NotAFlow);
    }
    if !are_none(&shares[..table.len()]) {
        return Err(SpreadFault::NotAFlow);
    }
    Ok(())
}

// Fills the shares of all pairs from the flow. Returns whether the flow fits them.
fn fill<B: Carries>(table: &Table<B>, form: Form, flow: &[i64], shares: &mut [PairShare]) -> bool
    requires { length table.now ≤ length shares.old }
    ensures fills { IsTrue result → Fills (B.bundle.listed form) table.now flow.now shares.new }
    ensures all { (arcs : List ((ℤ × ℤ) × B.Arc))
        → Fits B.bundle.kind B.carried (B.bundle.listed form) (meant B.bundle) table.now flow.now arcs
        → IsTrue result × AreFilled B.carried table.now shares.new arcs }
    ensures kept { length shares.new ≡ length shares.old }
    ensures ascending { IsStrictlySortedBy pair_cmp (keys_of table.now) }
{
    let mut rest = flow;
    let mut at = 0;
    for (_pair, bundle) in table.pairs() {
        let Some((units, after)) = sum_of(rest, bundle.canon_len(form)) else {
            return false;
        };
        let Some(share) = bundle.share(&units) else {
            return false;
        };
        shares[at] = share;
        at += 1;
        rest = after;
    }
    rest.is_empty()
}

// Returns the sum of the first `count` numbers and the others, if there are so many, none is negative, and the sum is
// below 2^63.
fn sum_of(flow: &[i64], count: u64) -> Option<(i64, &[i64])>
    ensures whole { IfSome result (λ r. length (take count flow.now) ≡ count) }
    ensures sum { IfSome result (λ r. r.0 ≡ total (take count flow.now)) }
    ensures rest { IfSome result (λ r. r.1.now ≡ drop count flow.now) }
    ensures some { length (take count flow.now) ≡ count → AllByRecursion (λ u. pos 0 ≤ℤ u) (take count flow.now)
        → total (take count flow.now) ≤ℤ pos (2 ^ 63 - 1) → IsSome result }
{
    if (flow.len() as u64) < count {
        return None;
    }
    let (first, rest) = flow.split_at(count as usize);
    let sum = sum(first)?;
    Some((sum, rest))
}

// Returns the sum of these numbers, if none is negative, and the sum is below 2^63.
fn sum(numbers: &[i64]) -> Option<i64>
    ensures sum { IfSome result (λ r. r ≡ total numbers.now) }
    ensures some { AllByRecursion (λ u. pos 0 ≤ℤ u) numbers.now → total numbers.now ≤ℤ pos (2 ^ 63 - 1)
        → IsSome result }
{
    let mut sum: i64 = 0;
    for number in numbers {
        if *number < 0 {
            return None;
        }
        sum = sum.checked_add(*number)?;
    }
    Some(sum)
}

// Gives each line its part of the share of its pair. Returns whether each line has one.
fn give<B: Carries>(
    table: &Table<B>,
    lines: &[ArcLine],
    shares: &mut [PairShare],
    units: &mut [i64],
) -> bool
    requires pairs { length table.now ≤ length shares.old }
    requires lines { length lines.now ≡ length units.old }
    ensures gives { IsTrue result → Gives (λ line. B.carried (B.line_arc line)) (keys_of table.now) shares.old lines.now
        units.new shares.new }
    ensures all { IsDistinct same_pair (keys_of table.now)
        → AreBalanced (λ line. B.carried (B.line_arc line)) (keys_of table.now) shares.old lines.now
        → IsTrue result × AreBalanced (λ line. B.carried (B.line_arc line)) (keys_of table.now) shares.new [] }
    ensures kept { length shares.new ≡ length shares.old }
{
    let mut ahead = Ahead::new();
    for i in 0..lines.len() {
        let mut near = ahead.next(table, &lines[i..]);
        let Some(some) = give_line(table, &lines[i], &mut near, shares) else {
            return false;
        };
        ahead.pass(near);
        units[i] = some;
    }
    true
}

// Gives a line its part of the share of its pair, and returns its units. The pair is likely to be at `near`, which is
// then the position after it.
fn give_line<B: Carries>(
    table: &Table<B>,
    line: &ArcLine,
    near: &mut usize,
    shares: &mut [PairShare],
) -> Option<i64>
    requires pairs { length table.now ≤ length shares.old }
    ensures gives { IfSome result (λ u. GivesLine (λ line. B.carried (B.line_arc line)) (keys_of table.now) shares.old
        line.now u shares.new) }
    ensures all { (lines : List ArcLine) → IsDistinct same_pair (keys_of table.now)
        → AreBalanced (λ line. B.carried (B.line_arc line)) (keys_of table.now) shares.old (line.now ∷ lines)
        → IsSome result × AreBalanced (λ line. B.carried (B.line_arc line)) (keys_of table.now) shares.new lines }
    ensures kept { length shares.new ≡ length shares.old }
{
    let arc = B::bounds(line);
    match table.position(&pair_of(line), *near) {
        Some(at) => {
            *near = at.saturating_add(1);
            take(&mut shares[at], &arc)
        }
        None if arc.low == 0 && arc.cap == 0 => Some(0),
        None => None,
    }
}

// Returns the pair of a line.
fn pair_of(line: &ArcLine) -> (i64, i64)
    ensures { result ≡ pair_of line.now }
{
    (line.tail, line.head)
}

// Whether no share has units left.
fn are_none(shares: &[PairShare]) -> bool
    ensures { IsTrue result ↔ AreNone shares.now }
{
    for share in shares {
        if share.left != 0 {
            return false;
        }
    }
    true
}
