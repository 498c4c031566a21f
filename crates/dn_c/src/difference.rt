// The first difference between two instances, as C has it.
ghost use Rattle.std.specs.Prelude.{◌≡◌, pos, Some};
ghost use Rattle.dn_c.specs.State.Differences.{ComparesWorks, DiffersAs, IsWideNumber, OfWhole, PairDiffers, TellsVerdict};
ghost use Rattle.dn_c.specs.State.Reads.{shown_work};

use crate::facts::kind_number;
use crate::shown::Shown;
use crate::work::Work;
use dn_arc_theory::How;
use dn_compare::compare;
use dn_instance::Verdict;

/// A whole number of 128 bits: `high` times 2^64, and `low`. All is 0 if there is no number.
#[repr(C)]
#[derive(Clone, Copy, Drop)]
pub struct WideNumber {
    pub known: bool,
    pub high: i64,
    pub low: u64,
}

/// Where two instances first differ, and their values there.
#[repr(C)]
#[derive(Clone, Copy, Drop)]
pub struct Difference {
    /// 0 nowhere, 1 in the kinds, 2 in NODES, 3 in the flow of node `at`, 4 in the sources, 5 in the sinks, 6 in the
    /// arcs from node `at` to node `to`, 7 in the numbers of items, 8 in the item `index`, 9 in the point `at`, or 255
    /// if a handle holds no instance.
    pub what: u8,
    /// A node, or the ID of a point; else 0.
    pub at: i64,
    /// The head of an ordered pair, else 0.
    pub to: i64,
    /// The item, counted from 1, else 0.
    pub index: u64,
    /// The least amount at which the costs of an ordered pair differ, else 0.
    pub amount: i64,
    /// The value of the left instance: the number of its kind, NODES, a flow, the source or the sink, the least length,
    /// the capacity or the least cost of the amount, or the number of items.
    pub left: WideNumber,
    /// The value of the right instance.
    pub right: WideNumber,
}

// Returns a number in two halves.
fn halves(number: Option<i128>) -> WideNumber
    ensures { IsWideNumber number result }
{
    match number {
        Some(n) => WideNumber {
            known: true,
            high: n.div_euclid(18446744073709551616) as i64,
            low: n.rem_euclid(18446744073709551616) as u64,
        },
        None => WideNumber {
            known: false,
            high: 0,
            low: 0,
        },
    }
}

// Returns a number of 64 bits as one of 128.
fn wide(number: Option<i64>) -> Option<i128>
    ensures { result ≡ number }
{
    match number {
        Some(n) => Some(n as i128),
        None => None,
    }
}

// Returns a difference of this sort at a node or an ordered pair, with these values.
fn tell(what: u8, at: i64, to: i64, left: Option<i128>, right: Option<i128>) -> Difference
    ensures { TellsVerdict what at to 0 (pos 0) left right result }
{
    Difference {
        what,
        at,
        to,
        index: 0,
        amount: 0,
        left: halves(left),
        right: halves(right),
    }
}

// Returns a difference of the whole instances, with these values.
fn of_both(what: u8, left: i64, right: i64) -> Difference
    ensures { OfWhole what (Some left) (Some right) result }
{
    tell(what, 0, 0, wide(Some(left)), wide(Some(right)))
}

// Returns a difference of the arcs of an ordered pair.
fn of_pair(src: i64, dst: i64, how: How) -> Difference
    ensures { PairDiffers src dst how result }
{
    match how {
        How::Lengths { left, right } => tell(6, src, dst, wide(left), wide(right)),
        How::Totals { left, right } => tell(6, src, dst, wide(Some(left)), wide(Some(right))),
        How::Costs(gap) => Difference {
            amount: gap.amount,
            ..tell(6, src, dst, gap.left, gap.right)
        },
    }
}

// Returns a verdict as C has it.
fn difference_of(verdict: Verdict) -> Difference
    ensures { DiffersAs verdict result }
{
    match verdict {
        Verdict::Same => tell(0, 0, 0, None, None),
        Verdict::Kind { left, right } => of_both(
            1,
            kind_number(left) as i64,
            kind_number(right) as i64,
        ),
        Verdict::Nodes { left, right } => of_both(2, left, right),
        Verdict::Supply { id, left, right } => {
            tell(3, id, 0, wide(Some(left)), wide(Some(right)))
        }
        Verdict::Source { left, right } => of_both(4, left, right),
        Verdict::Sink { left, right } => of_both(5, left, right),
        Verdict::Pair { src, dst, how } => of_pair(src, dst, how),
        Verdict::Length { left, right } => {
            tell(7, 0, 0, Some(left as i128), Some(right as i128))
        }
        Verdict::Item { index } => Difference {
            index,
            ..tell(8, 0, 0, None, None)
        },
        Verdict::Point { id } => tell(9, id, 0, None, None),
    }
}

/// Returns where two instances first differ.
pub fn parting(left: &Shown, right: &Shown) -> Difference
    ensures { ComparesWorks (shown_work left.now) (shown_work right.now) result }
{
    match left.get() {
        Some(Work::Read(left, _)) => match right.get() {
            Some(Work::Read(right, _)) => difference_of(compare(left, right)),
            _ => tell(255, 0, 0, None, None),
        },
        _ => tell(255, 0, 0, None, None),
    }
}
