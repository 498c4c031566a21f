// An arc line of a text.
ghost use Rattle.std.specs.Prelude.{◌≡◌, ◌≤◌, ◌+◌, ◌^◌, ◌++◌, length, take, drop};
ghost use Rattle.std.specs.Option.{option_or};
ghost use Rattle.dn_arc_lines.specs.State.ArcLines.{arc_line_in, kind_in};
ghost use Rattle.dn_arc_lines.specs.State.Reading.{arc_line_of_row, numbered};

use dn_line::{Kind, Line, Row, RowLine};

/// An arc line of a text, with the numbers in the order of its line, which are the length (`sp`), the capacity (`max`),
/// or the lower bound, the capacity and the cost (`min`). Missing numbers are 0.
#[repr(C)]
#[derive(Clone, Copy, Drop)]
pub struct ArcLine {
    /// The number of the line, counted from 1.
    pub line: u64,
    /// SRC
    pub tail: i64,
    /// DST
    pub head: i64,
    /// The first number after DST.
    pub a: i64,
    /// The second, or 0.
    pub b: i64,
    /// The third, or 0.
    pub c: i64,
}

// Returns the arc line of the item of the line with this number, if it is an arc line.
pub(crate) fn arc_line_in(number: u64, item: &Line) -> Option<ArcLine>
    ensures { result ≡ arc_line_in number item.now }
{
    match *item {
        Line::MinArc {
            src,
            dst,
            low,
            cap,
            cost,
        } => Some(ArcLine {
            line: number,
            tail: src,
            head: dst,
            a: low,
            b: cap,
            c: cost,
        }),
        Line::MaxArc { src, dst, cap } => Some(ArcLine {
            line: number,
            tail: src,
            head: dst,
            a: cap,
            b: 0,
            c: 0,
        }),
        Line::SpArc { src, dst, length } => Some(ArcLine {
            line: number,
            tail: src,
            head: dst,
            a: length,
            b: 0,
            c: 0,
        }),
        _ => None,
    }
}

// Returns the kind that is known after the line of an item, if this one is known before it.
pub(crate) fn kind_then(known: Option<Kind>, item: &Line) -> Option<Kind>
    ensures { result ≡ option_or known (kind_in item.now) }
{
    match (known, *item) {
        (Some(kind), _) => Some(kind),
        (None, Line::Graph { kind, .. }) => Some(kind),
        (None, Line::Aux { kind, .. }) => Some(kind),
        _ => None,
    }
}

// Returns the arc line of the row of the line with this number.
#[inline(always)]
fn arc_line_of_row(number: u64, row: &Row) -> ArcLine
    ensures { result ≡ arc_line_of_row number row.now }
{
    ArcLine {
        line: number,
        tail: row.first,
        head: row.second,
        a: row.third,
        b: row.fourth,
        c: row.fifth,
    }
}

// Writes the arc lines of these rows, which follow so many lines, behind the first `at` arc lines.
pub(crate) fn put_rows(rows: &[RowLine], number: u64, out: &mut [ArcLine], at: usize)
    requires room { at + length rows.now ≤ length out.old }
    requires few { number + length rows.now ≤ 2 ^ 63 }
    ensures rows { take (at + length rows.now) out.new ≡ take at out.old ++ numbered number rows.now }
    ensures rest { drop (at + length rows.now) out.new ≡ drop (at + length rows.now) out.old }
{
    let all = rows.len();
    for i in 0..all {
        out[at + i] = arc_line_of_row(number + 1 + i as u64, &rows[i].row);
    }
}
