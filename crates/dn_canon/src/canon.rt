// Writes the canonical text of a parsed instance or of a source into a sink or memory, and judges texts.
ghost use Rattle.std.specs.Prelude.{◌≡◌, ◌↔◌, IfErr, IsTrue, OnOk};
ghost use Rattle.dn_instance.specs.State.Helds.{OfHeld};
ghost use Rattle.dn_instance.specs.State.ReaderResults.{OfText};
ghost use Rattle.dn_instance.specs.State.SourceResults.{SourceLeft};
ghost use Rattle.dn_canon.specs.CanonTexts.{IsCanonOf};
ghost use Rattle.dn_canon.specs.State.Writes.{IsOfWriting, SinkAfter, WritesCanon, written_as};
ghost use Rattle.dn_canon.specs.State.Runs.{JudgesCanon, RunsSource, TextOutcome};

use crate::writer::{NodeLines, write_graph, write_points, write_queries, write_sources};
use dn_bundle::Form;
use dn_instance::{Held, Refusal, View, read_from, read_text};
use dn_line::{ByteSource, Kind};
use dn_sink::{Bytes, Matcher, Sink, SinkFault};
use std::alloc::Global;

/// Writes the canonical text of a parsed instance into a sink, one block of lines at a time, and flushes the sink.
/// Allocates nothing.
///
/// # Errors
///
/// `Write` if the sink failed; it has then taken a prefix of the text. `CountTooLarge` if the text has more than 2^63-1
/// counted lines; nothing is put then.
pub fn write_canon<K: Sink>(held: &Held, sink: &mut K, form: Form) -> Result<(), Refusal>
    ensures refusal { IfErr result IsOfWriting }
    ensures after { SinkAfter K.sink sink.old sink.new result }
    ensures flushed { OnOk result (IsTrue (K.sink.is_flushed sink.new)) }
    ensures canon { OfHeld held.now (λ I. WritesCanon K.sink sink.old sink.new form I result) }
{
    let nodes = held.nodes();
    match held.view() {
        View::Min { supplies, table } => {
            let lines = NodeLines::Supplies(supplies);
            write_graph(sink, Kind::Min, &nodes, &lines, table, form)
        }
        View::Max {
            source,
            sink: target,
            table,
        } => {
            let lines = NodeLines::Terminals(&source, &target);
            write_graph(sink, Kind::Max, &nodes, &lines, table, form)
        }
        View::Sp { table } => {
            write_graph(sink, Kind::Sp, &nodes, &NodeLines::NoNodes, table, form)
        }
        View::Ss { items } => written(write_sources(sink, items)),
        View::P2p { items } => written(write_queries(sink, items)),
        View::Co { points } => written(write_points(sink, points)),
    }
}

/// Returns the canonical text of a parsed instance.
///
/// # Errors
///
/// `Memory` if an allocation for the text failed. `CountTooLarge` if the text has more than 2^63-1 counted lines.
pub fn canon_text(alloc: Global, held: &Held, form: Form) -> Result<Vec<u8>, Refusal>
    ensures { OfHeld held.now (λ I. TextOutcome (λ v. v.items) form I result) }
{
    let mut bytes = Bytes::new(alloc);
    match write_canon(held, &mut bytes, form) {
        Ok(()) => Ok(bytes.into_all()),
        Err(Refusal::CountTooLarge) => Err(Refusal::CountTooLarge),
        Err(_) => Err(Refusal::Memory),
    }
}

/// Reads the text of a source, and then writes its canonical text. Nothing is put before the whole text was read and
/// has no fault.
///
/// # Errors
///
/// The errors of `read_from` and of `write_canon`. Nothing was put, unless the error is `Write`.
pub fn canon_run<S: ByteSource, K: Sink>(
    alloc: Global,
    source: &mut S,
    sink: &mut K,
    form: Form,
) -> Result<(), Refusal>
    ensures outcome { RunsSource S.source source.old source.new K.sink sink.old sink.new form result }
    ensures left { SourceLeft S.source source.old source.new result }
    ensures after { SinkAfter K.sink sink.old sink.new result }
    ensures flushed { OnOk result (IsTrue (K.sink.is_flushed sink.new)) }
{
    match read_from(alloc, source) {
        Ok(held) => {
            let written = write_canon(&held, sink, form);
            drop(held);
            written
        }
        Err(refusal) => Err(refusal),
    }
}

/// Whether a text is the canonical text, in this form, of what it reads as.
///
/// # Errors
///
/// `Text` with the first fault of the text. `Memory` only at a line without a fault.
pub fn is_canon(alloc: Global, text: &[u8], form: Form) -> Result<bool, Refusal>
    ensures { JudgesCanon form text.now result }
{
    match read_text(alloc, text) {
        Ok(held) => {
            let judged = is_canon_of(&held, text, form);
            drop(held);
            Ok(judged)
        }
        Err(refusal) => Err(refusal),
    }
}

/// Whether `text`, which reads as the instance in `held`, is its canonical text in this form. The canonical text is
/// compared while it is written, up to the first byte that differs, so nothing is allocated.
pub fn is_canon_of(held: &Held, text: &[u8], form: Form) -> bool
    ensures { OfText text.now held.now (λ I. IsTrue result ↔ IsCanonOf form text.now I) }
{
    let mut matcher = Matcher::new(text);
    let written = write_canon(held, &mut matcher, form);
    let same = matcher.is_match();
    match written {
        Ok(()) => same,
        Err(_) => false,
    }
}

// Maps a failure of the sink to `Refusal::Write`.
fn written(put: Result<(), SinkFault>) -> Result<(), Refusal>
    ensures { written_as put ≡ result }
{
    match put {
        Ok(()) => Ok(()),
        Err(_) => Err(Refusal::Write),
    }
}
