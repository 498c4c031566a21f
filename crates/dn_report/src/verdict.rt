// The line that `compare` prints for a verdict.
ghost use Rattle.std.specs.Prelude.{◌≡◌, ◌≤◌, ◌+◌, ◌++◌, ◌∷◌, [], codes, length, IsTrue, OnOk};
ghost use Rattle.std.specs.Fmt.{signed_decimal};
ghost use Rattle.dn_sink.specs.Rows.{line_text};
ghost use Rattle.dn_sink.specs.Puts.{Puts};
ghost use Rattle.dn_report.specs.Verdicts.{number_or_none, verdict_row};

use dn_bundle::{Gap, How};
use dn_instance::Verdict;
use dn_line::Kind;
use dn_sink::{LineBuffer, Sink, SinkFault};

/// Puts the line of a verdict, and then flushes the sink. The line is `same`, or `differ`, what differs, where, and the
/// values of the left and the right side. Allocates nothing.
///
/// # Errors
///
/// The sink failed. It has taken a prefix of the line.
pub fn put_verdict<K: Sink>(sink: &mut K, verdict: &Verdict) -> Result<(), SinkFault>
    ensures text { Puts K.sink sink.old sink.new (line_text (verdict_row verdict.now)) result }
    ensures flushed { OnOk result (IsTrue (K.sink.is_flushed sink.new)) }
{
    verdict_line(verdict).put(sink)?;
    sink.flush()
}

fn verdict_line(verdict: &Verdict) -> LineBuffer
    ensures { result ≡ line_text (verdict_row verdict.now) }
{
    match verdict {
        Verdict::Same => same_line(),
        Verdict::Kind { left, right } => kinds_line(*left, *right),
        Verdict::Nodes { left, right } => sides_line(b"differ nodes", left, right),
        Verdict::Supply { id, left, right } => supply_line(id, left, right),
        Verdict::Source { left, right } => sides_line(b"differ source", left, right),
        Verdict::Sink { left, right } => sides_line(b"differ sink", left, right),
        Verdict::Pair { src, dst, how } => match how {
            How::Lengths { left, right } => lengths_line(src, dst, left, right),
            How::Totals { left, right } => totals_line(src, dst, left, right),
            How::Costs(gap) => gap_line(src, dst, gap),
        },
        Verdict::Length { left, right } => counts_line(*left, *right),
        Verdict::Item { index } => item_line(*index),
        Verdict::Point { id } => point_line(id),
    }
}

fn same_line() -> LineBuffer
    ensures { result ≡ line_text (verdict_row Verdict.Same) }
{
    let mut line = LineBuffer::new(b"same");
    line.newline();
    line
}

fn kinds_line(left: Kind, right: Kind) -> LineBuffer
    ensures { result ≡ line_text (verdict_row (Verdict.Kind left right)) }
{
    let mut line = LineBuffer::new(b"differ kind");
    line.word(left.name().as_bytes());
    line.word(right.name().as_bytes());
    line.newline();
    line
}

// Returns a line of what differs, and the numbers of both sides.
fn sides_line(what: &[u8], left: &i64, right: &i64) -> LineBuffer
    requires { length what.now ≤ 16 }
    ensures { result ≡ line_text (what.now ∷ signed_decimal left.now ∷ signed_decimal right.now ∷ []) }
{
    let mut line = LineBuffer::new(what);
    line.number(left);
    line.number(right);
    line.newline();
    line
}

fn supply_line(id: &i64, left: &i64, right: &i64) -> LineBuffer
    ensures { result ≡ line_text (verdict_row (Verdict.Supply id.now left.now right.now)) }
{
    let mut line = LineBuffer::new(b"differ supply");
    line.number(id);
    line.number(left);
    line.number(right);
    line.newline();
    line
}

fn counts_line(left: u64, right: u64) -> LineBuffer
    ensures { result ≡ line_text (verdict_row (Verdict.Length left right)) }
{
    let mut line = LineBuffer::new(b"differ length");
    line.count(left);
    line.count(right);
    line.newline();
    line
}

fn item_line(index: u64) -> LineBuffer
    ensures { result ≡ line_text (verdict_row (Verdict.Item index)) }
{
    let mut line = LineBuffer::new(b"differ item");
    line.count(index);
    line.newline();
    line
}

fn point_line(id: &i64) -> LineBuffer
    ensures { result ≡ line_text (verdict_row (Verdict.Point id.now)) }
{
    let mut line = LineBuffer::new(b"differ point");
    line.number(id);
    line.newline();
    line
}

fn lengths_line(src: &i64, dst: &i64, left: &Option<i64>, right: &Option<i64>) -> LineBuffer
    ensures { result ≡ line_text (verdict_row (Verdict.Pair src.now dst.now (How.Lengths left.now right.now))) }
{
    let mut line = pair_start(src, dst);
    line.word(b"length");
    add_number(&mut line, left);
    add_number(&mut line, right);
    line.newline();
    line
}

fn totals_line(src: &i64, dst: &i64, left: &i64, right: &i64) -> LineBuffer
    ensures { result ≡ line_text (verdict_row (Verdict.Pair src.now dst.now (How.Totals left.now right.now))) }
{
    let mut line = pair_start(src, dst);
    line.word(b"capacity");
    line.number(left);
    line.number(right);
    line.newline();
    line
}

fn gap_line(src: &i64, dst: &i64, gap: &Gap) -> LineBuffer
    ensures { result ≡ line_text (verdict_row (Verdict.Pair src.now dst.now (How.Costs gap.now))) }
{
    let mut line = pair_start(src, dst);
    line.word(b"amount");
    line.number(&gap.amount);
    line.word(b"cost");
    add_cost(&mut line, &gap.left);
    add_cost(&mut line, &gap.right);
    line.newline();
    line
}

// Returns the beginning of the line of a pair that differs.
fn pair_start(src: &i64, dst: &i64) -> LineBuffer
    ensures text { result
        ≡ (codes "differ pair" ++ 32 ∷ signed_decimal src.now) ++ 32 ∷ signed_decimal dst.now }
    ensures within { length result ≤ 53 }
{
    let mut line = LineBuffer::new(b"differ pair");
    line.number(src);
    line.number(dst);
    line
}

// Appends a space, and a number or `none`.
fn add_number(line: &mut LineBuffer, number: &Option<i64>)
    requires { length line.old ≤ 160 }
    ensures text { line.new ≡ line.old ++ 32 ∷ number_or_none number.now }
    ensures within { length line.new ≤ length line.old + 21 }
{
    match number {
        Some(number) => line.number(number),
        None => line.word(b"none"),
    }
}

// Appends a space, and a cost or `none`.
fn add_cost(line: &mut LineBuffer, cost: &Option<i128>)
    requires { length line.old ≤ 150 }
    ensures text { line.new ≡ line.old ++ 32 ∷ number_or_none cost.now }
    ensures within { length line.new ≤ length line.old + 41 }
{
    match cost {
        Some(cost) => line.wide_number(cost),
        None => line.word(b"none"),
    }
}
