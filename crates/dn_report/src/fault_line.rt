// The line that says why a run was refused.
ghost use Rattle.std.specs.Prelude.{◌++◌, IsTrue, OnOk, codes, map};
ghost use Rattle.std.specs.List.{concat};
ghost use Rattle.dn_sink.specs.Puts.{Puts};
ghost use Rattle.dn_report.specs.FaultLines.{fault_line, reason_text, unfit_line};
ghost use Rattle.dn_report.specs.State.FaultEnds.{node_end, numbered};

use dn_instance::{CompanionFault, Place, Refusal};
use dn_sink::{Sink, SinkFault, put_all};
use itoa::Buffer;

/// Puts the line of a refusal of the text of this name: the place of the fault, its number and its name. Then flushes
/// the sink.
///
/// # Errors
///
/// The sink failed. It has taken the line or a prefix of it.
pub fn put_fault_line<K: Sink>(sink: &mut K, name: &str, refusal: &Refusal) -> Result<(), SinkFault>
    ensures puts { Puts K.sink sink.old sink.new (fault_line name.now refusal.now) result }
    ensures flushed { OnOk result (IsTrue (K.sink.is_flushed sink.new)) }
{
    let name = name.as_bytes();
    match refusal {
        Refusal::Text {
            place: Place::Line(line),
            ..
        } => {
            let mut digits = Buffer::new();
            let line = digits.format(*line).as_bytes();
            put_line(sink, name, b":", line, refusal)
        }
        Refusal::Text {
            place: Place::End,
            ..
        } => put_line(sink, name, b":end", b"", refusal),
        Refusal::Write => put_line(sink, b"out", b"", b"", refusal),
        _ => put_line(sink, name, b"", b"", refusal),
    }
}

/// Puts the line that says why the companion of this name does not fit its graph: the number and the name of the fault,
/// and the node that is not in the graph. Then flushes the sink.
///
/// # Errors
///
/// The sink failed. It has taken the line or a prefix of it.
pub fn put_unfit_line<K: Sink>(
    sink: &mut K,
    name: &str,
    fault: &CompanionFault,
) -> Result<(), SinkFault>
    ensures puts { Puts K.sink sink.old sink.new (unfit_line name.now fault.now) result }
    ensures flushed { OnOk result (IsTrue (K.sink.is_flushed sink.new)) }
{
    let mut digits = Buffer::new();
    let number = digits.format(fault.number()).as_bytes();
    let reason = fault.name().as_bytes();
    match fault {
        CompanionFault::NotInGraph { id } => {
            let mut digits = Buffer::new();
            let id = digits.format(*id).as_bytes();
            put_node_fault(sink, name.as_bytes(), number, reason, id)
        }
        CompanionFault::NotKinds => put_kind_fault(sink, name.as_bytes(), number, reason),
    }
}

// Puts the name of a text, a colon, the number and the name of a fault, a node, and an LF. The pieces are parameters
// here and below, since the borrow checker asks for one lifetime of all references in an array.
fn put_node_fault<K: Sink>(
    sink: &mut K,
    name: &[u8],
    number: &[u8],
    reason: &[u8],
    id: &[u8],
) -> Result<(), SinkFault>
    ensures puts { Puts K.sink sink.old sink.new
        (name.now ++ numbered number.now reason.now (node_end id.now)) result }
    ensures flushed { OnOk result (IsTrue (K.sink.is_flushed sink.new)) }
{
    put_pieces(sink, &[name, b": ", number, b" ", reason, b" ", id, b"\n"])
}

// Puts the name of a text, a colon, the number and the name of a fault, and an LF.
fn put_kind_fault<K: Sink>(
    sink: &mut K,
    name: &[u8],
    number: &[u8],
    reason: &[u8],
) -> Result<(), SinkFault>
    ensures puts { Puts K.sink sink.old sink.new
        (name.now ++ numbered number.now reason.now (codes "\n")) result }
    ensures flushed { OnOk result (IsTrue (K.sink.is_flushed sink.new)) }
{
    put_pieces(sink, &[name, b": ", number, b" ", reason, b"\n"])
}

// Puts the place of a refusal, given in three parts, a colon, the number and the name of the refusal, and an LF.
fn put_line<K: Sink>(
    sink: &mut K,
    name: &[u8],
    place: &[u8],
    line: &[u8],
    refusal: &Refusal,
) -> Result<(), SinkFault>
    ensures puts { Puts K.sink sink.old sink.new
        (name.now ++ (place.now ++ (line.now ++ reason_text refusal.now))) result }
    ensures flushed { OnOk result (IsTrue (K.sink.is_flushed sink.new)) }
{
    let mut digits = Buffer::new();
    let number = digits.format(refusal.number()).as_bytes();
    put_refusal(sink, name, place, line, number, refusal.name().as_bytes())
}

// Puts three parts, a colon, the number and the name of a refusal, and an LF.
fn put_refusal<K: Sink>(
    sink: &mut K,
    name: &[u8],
    place: &[u8],
    line: &[u8],
    number: &[u8],
    reason: &[u8],
) -> Result<(), SinkFault>
    ensures puts { let end = numbered number.now reason.now (codes "\n") in
        Puts K.sink sink.old sink.new (name.now ++ (place.now ++ (line.now ++ end))) result }
    ensures flushed { OnOk result (IsTrue (K.sink.is_flushed sink.new)) }
{
    put_pieces(
        sink,
        &[name, place, line, b": ", number, b" ", reason, b"\n"],
    )
}

// Puts pieces, one after the other, and then flushes the sink.
fn put_pieces<K: Sink>(sink: &mut K, pieces: &[&[u8]]) -> Result<(), SinkFault>
    ensures puts { Puts K.sink sink.old sink.new (concat (map (λ piece. piece.now) pieces.now)) result }
    ensures flushed { OnOk result (IsTrue (K.sink.is_flushed sink.new)) }
{
    put_each(sink, pieces)?;
    sink.flush()
}

// Puts pieces, one after the other.
fn put_each<K: Sink>(sink: &mut K, pieces: &[&[u8]]) -> Result<(), SinkFault>
    ensures { Puts K.sink sink.old sink.new (concat (map (λ piece. piece.now) pieces.now)) result }
{
    for piece in pieces {
        put_all(sink, piece)?;
    }
    Ok(())
}
