// The functions that C calls. `c/dnorm.h` declares them and says which rules a caller must keep. A call takes the work
// out of its handle and puts it back, which moves only a pointer.
ghost use Rattle.std.specs.Prelude.{◌≡◌, ◌≤◌, None, length};
ghost use Rattle.dn_c.specs.State.Differences.{ComparesWorks};
ghost use Rattle.dn_c.specs.State.Fits.{Judges};
ghost use Rattle.dn_c.specs.State.Flows.{SpreadsHeld};
ghost use Rattle.dn_c.specs.State.Lines.{BeginsLines, TakesHeldLines};
ghost use Rattle.dn_c.specs.State.Facts.{IsFacts};
ghost use Rattle.dn_c.specs.State.Outputs.{CopiesHeld, CopiesItems, CopiesText, CountsArcs, PrintsHeld};
ghost use base.Fml.{Lft, Share, fsep};
ghost use types.Logic.{sem};
ghost use Rattle.dn_c.specs.declared.shown.Shown.{Shown};
ghost use Rattle.dn_c.specs.State.Reads.{read_at, alive_at, shown_work};
ghost use Rattle.dn_c.specs.State.Works.{work_of, BeginsReader, OnWork, Feeds, Finishes};

use crate::arcs::Arc;
use crate::cursor::Cursor;
use crate::difference::{Difference, parting};
use crate::facts::{Facts, tell};
use crate::fits::{Fit, judge};
use crate::flows::spread_on;
use crate::handle::Handle;
use crate::items::Item;
use crate::lines::{Lines, lines_of, no_lines};
use crate::outputs::{arc_count, canon_into, items, next_arcs, text};
use crate::shown::Shown;
use crate::status::{Count, Status, fine, refused_with, wrong_call, wrong_count};
use crate::store::store;
use crate::work::Work;
use dn_arc_lines::{ArcLine, ArcLines};
use dn_flow::PairShare;
use dn_instance::{Reader, Refusal};
use std::alloc::Global;

/// Makes a reader that was fed no bytes, and puts it into a handle that holds nothing. The handle owns it.
///
/// # Errors
///
/// The status is that of `Memory` if an allocation fails, and the handle then holds nothing. If the handle holds
/// something, it keeps that, and the call is a wrong one.
#[unsafe(no_mangle)]
pub extern "C" fn dnorm_begin(alloc: Global, handle: &mut Handle) -> Status
    ensures { BeginsReader (work_of handle.old) (work_of handle.new) result }
{
    if handle.is_full() {
        return wrong_call();
    }
    store(alloc, handle, Work::Reading(Reader::new(alloc)))
}

/// Feeds the next piece of the text to the reader. Pieces may end anywhere, also in a line or in a word, and may be
/// empty. The reader keeps none of the bytes.
///
/// # Errors
///
/// The status is that of the first fault of the text as soon as its line is complete, or that of `Memory`. Every later
/// piece, and the end of the text, then has the same status. If the handle holds no reader, nothing changes.
#[unsafe(no_mangle)]
pub extern "C" fn dnorm_feed(alloc: Global, handle: &mut Handle, piece: &[u8]) -> Status
    ensures { OnWork (λ old. Feeds old piece.now) (work_of handle.old) (work_of handle.new) result }
{
    match handle.take(alloc) {
        Some(mut work) => {
            let status = feed_work(&mut *work, piece);
            handle.put(work);
            status
        }
        None => wrong_call(),
    }
}

// Feeds the next piece of the text, if the work is a reader.
fn feed_work(work: &mut Work, piece: &[u8]) -> Status
    ensures { Feeds work.old piece.now work.new result }
{
    match work {
        Work::Reading(reader) => match reader.feed(piece) {
            Ok(()) => fine(),
            Err(refusal) => refused_with(refusal),
        },
        _ => wrong_call(),
    }
}

/// Ends the text, and frees the reader. The handle then holds the parsed instance of the text, or why it is refused.
///
/// # Errors
///
/// The status is that of the first fault of the text, or that of `Memory`. If the handle holds no reader, nothing
/// changes.
#[unsafe(no_mangle)]
pub extern "C" fn dnorm_finish(alloc: Global, handle: &mut Handle) -> Status
    ensures { OnWork Finishes (work_of handle.old) (work_of handle.new) result }
{
    match handle.take(alloc) {
        Some(mut work) => {
            let (new, status) = finished(
                alloc,
                Box::replace(&mut work, Work::Refused(Refusal::Memory)),
            );
            drop(Box::replace(&mut work, new));
            handle.put(work);
            status
        }
        None => wrong_call(),
    }
}

// Ends the text, if the work is a reader.
fn finished(alloc: Global, work: Work) -> (Work, Status)
    ensures { Finishes work result.0 result.1 }
{
    match work {
        Work::Reading(reader) => match reader.finish() {
            Ok(held) => (Work::Read(held, alloc), fine()),
            Err(refusal) => (Work::Refused(refusal), refused_with(refusal)),
        },
        other => (other, wrong_call()),
    }
}

/// Makes a reader of arc lines that was fed no bytes, and puts it into a handle that holds nothing. The handle owns it.
///
/// # Errors
///
/// The status is that of `Memory` if an allocation fails, and the handle then holds nothing. If the handle holds
/// something, it keeps that, and the call is a wrong one.
#[unsafe(no_mangle)]
pub extern "C" fn dnorm_lines_begin(alloc: Global, handle: &mut Handle) -> Status
    ensures { BeginsLines (work_of handle.old) (work_of handle.new) result }
{
    match handle.is_full() {
        true => wrong_call(),
        false => store(alloc, handle, Work::Lines(ArcLines::new())),
    }
}

/// Feeds the next bytes of a text, and writes the arc lines among the lines that these end. Takes all bytes, unless it
/// fills `out` before, or a line has a fault by itself: then it takes the bytes up to the end of the last line that it
/// took. Once a line had a fault, it takes no more bytes.
///
/// # Errors
///
/// The code is the number of the fault that a line has by itself, and the line is that line. It is that of a wrong call
/// where the handle holds no reader of arc lines, and then nothing changes.
#[unsafe(no_mangle)]
pub extern "C" fn dnorm_lines(
    alloc: Global,
    handle: &mut Handle,
    piece: &[u8],
    out: &mut [ArcLine],
) -> Lines
    ensures takes { TakesHeldLines (work_of handle.old) piece.now (work_of handle.new) out.old out.new result }
    ensures bound { result.used ≤ length piece.now }
    ensures fits { result.count ≤ length out.new }
{
    match handle.take(alloc) {
        Some(mut work) => {
            let lines = lines_of(&mut *work, piece, out);
            handle.put(work);
            lines
        }
        None => no_lines(),
    }
}

/// Frees what the handle holds. It then holds nothing, and may be used anew. C calls it by `dnorm_free` of `c/free.c`,
/// which takes null as well.
#[unsafe(no_mangle)]
pub extern "C" fn dnorm_release(alloc: Global, handle: &mut Handle)
    ensures { work_of handle.new ≡ None }
{
    drop(handle.take(alloc));
}

/// Returns what the instance is, in numbers, or what the problem line declares that a reader has read. The kind is 0 if
/// the handle holds neither.
#[unsafe(no_mangle)]
pub unsafe extern "C" fn dnorm_facts(handle: *const u8) -> Facts
    ghost g: { (Lft × Share) × Shown }
    requires* { sem 𝓛 (read_at g.0 handle g.1) }
    ensures* alive { sem 𝓛 (alive_at g.0) }
    ensures facts { IsFacts (shown_work g.1) result }
{
    tell(&*(handle as *const Shown))
}

/// Returns how many canonical arcs the instance has in a form (1 or 2). The call walks over the pairs.
///
/// # Errors
///
/// The code is 34 if there are 2^64 or more. It is that of a wrong call where the handle holds no graph.
#[unsafe(no_mangle)]
pub unsafe extern "C" fn dnorm_arc_count(handle: *const u8, form: u8) -> Count
    ghost g: { (Lft × Share) × Shown }
    requires* { sem 𝓛 (read_at g.0 handle g.1) }
    ensures* alive { sem 𝓛 (alive_at g.0) }
    ensures counts { CountsArcs (shown_work g.1) form result }
{
    arc_count(&*(handle as *const Shown), form)
}

/// Copies the canonical arcs of the instance in a form (1 or 2) after the cursor, as far as there is room, in the order
/// of the canonical text, and moves the cursor behind them. Returns how many it copied. Where it copied fewer than
/// there was room for, none are left.
///
/// # Errors
///
/// The code is that of a wrong call where the handle holds no graph, and then nothing changes.
#[unsafe(no_mangle)]
pub unsafe extern "C" fn dnorm_next(
    handle: *const u8,
    form: u8,
    cursor: &mut Cursor,
    out: &mut [Arc],
) -> Count
    ghost g: { (Lft × Share) × Shown }
    requires* { sem 𝓛 (read_at g.0 handle g.1) }
    ensures* alive { sem 𝓛 (alive_at g.0) }
    ensures copies { CopiesHeld (shown_work g.1) form cursor.old cursor.new out.old out.new result }
    ensures fits { result.count ≤ length out.new }
{
    next_arcs(&*(handle as *const Shown), form, cursor, out)
}

/// Puts the canonical text of the instance in a form (1 or 2) into `into`, a handle that holds nothing. It then owns
/// the text.
///
/// # Errors
///
/// The status is that of `Memory` or of `CountTooLarge`, and `into` then holds nothing. If `into` holds something, or
/// `handle` no instance, nothing changes, and the call is a wrong one.
#[unsafe(no_mangle)]
pub unsafe extern "C" fn dnorm_canon(handle: *const u8, form: u8, into: &mut Handle) -> Status
    ghost g: { (Lft × Share) × Shown }
    requires* { sem 𝓛 (read_at g.0 handle g.1) }
    ensures* alive { sem 𝓛 (alive_at g.0) }
    ensures prints { PrintsHeld (shown_work g.1) form (work_of into.old) (work_of into.new) result }
{
    canon_into(&*(handle as *const Shown), form, into)
}

/// Puts a flow on the canonical arcs of the graph in a form (1 or 2) back on its arc lines. `flow` has the units of
/// each arc in the order of the canonical text, and `units` gets those of each line. `shares` is room to work in, for
/// one share of each pair.
///
/// # Errors
///
/// The status is 42 if this is no flow on the lines, or the lines are not those of the graph; `units` and `shares` may
/// have changed. It is that of a wrong call where the handle holds no graph, there are fewer shares than pairs, or not
/// as many units as lines, and then nothing changes.
#[unsafe(no_mangle)]
pub unsafe extern "C" fn dnorm_spread(
    handle: *const u8,
    form: u8,
    flow: &[i64],
    lines: &[ArcLine],
    shares: &mut [PairShare],
    units: &mut [i64],
) -> Status
    ghost g: { (Lft × Share) × Shown }
    requires* { sem 𝓛 (read_at g.0 handle g.1) }
    ensures* alive { sem 𝓛 (alive_at g.0) }
    ensures spreads { SpreadsHeld (shown_work g.1) form flow.now lines.now
        (length shares.old) units.old units.new result }
{
    spread_on(&*(handle as *const Shown), form, flow, lines, shares, units)
}

/// Copies the bytes of the text from the one at `from`, counted from 0, as far as there is room. Returns how many it
/// copied: 0 past the last.
///
/// # Errors
///
/// The code is that of a wrong call where the handle holds no text, and then nothing changes.
#[unsafe(no_mangle)]
pub extern "C" fn dnorm_text(
    alloc: Global,
    handle: &mut Handle,
    from: usize,
    out: &mut [u8],
) -> Count
    ensures copies { CopiesText (work_of handle.old) from out.old out.new result }
    ensures keeps { work_of handle.new ≡ work_of handle.old }
    ensures fits { result.count ≤ length out.new }
{
    match handle.take(alloc) {
        Some(work) => {
            let count = text(&*work, from, out);
            handle.put(work);
            count
        }
        None => wrong_count(),
    }
}

/// Copies what the instance holds beside its arcs after the cursor, as far as there is room, and moves the cursor
/// behind it: the flows that are not 0 by ascending node, the source with the sink, or the items or points of a
/// companion.
/// Returns how many it copied. Where it copied fewer than there was room for, none are left.
///
/// # Errors
///
/// The code is that of a wrong call where the handle holds no instance, and then nothing changes.
#[unsafe(no_mangle)]
pub unsafe extern "C" fn dnorm_items(
    handle: *const u8,
    cursor: &mut Cursor,
    out: &mut [Item],
) -> Count
    ghost g: { (Lft × Share) × Shown }
    requires* { sem 𝓛 (read_at g.0 handle g.1) }
    ensures* alive { sem 𝓛 (alive_at g.0) }
    ensures copies { CopiesItems (shown_work g.1) cursor.old cursor.new out.old out.new result }
    ensures fits { result.count ≤ length out.new }
{
    items(&*(handle as *const Shown), cursor, out)
}

/// Returns where two instances first differ. Both handles keep theirs.
#[unsafe(no_mangle)]
pub unsafe extern "C" fn dnorm_compare(left: *const u8, right: *const u8) -> Difference
    ghost g: { ((Lft × Share) × Shown) × ((Lft × Share) × Shown) }
    requires* { sem 𝓛 (fsep (read_at g.0.0 left g.0.1) (read_at g.1.0 right g.1.1)) }
    ensures* alive { sem 𝓛 (fsep (alive_at g.0.0) (alive_at g.1.0)) }
    ensures compares { ComparesWorks (shown_work g.0.1) (shown_work g.1.1) result }
{
    parting(&*(left as *const Shown), &*(right as *const Shown))
}

/// Returns whether the second instance is a companion that names only nodes of the graph. Both handles keep theirs.
#[unsafe(no_mangle)]
pub unsafe extern "C" fn dnorm_fits(graph: *const u8, companion: *const u8) -> Fit
    ghost g: { ((Lft × Share) × Shown) × ((Lft × Share) × Shown) }
    requires* { sem 𝓛 (fsep (read_at g.0.0 graph g.0.1) (read_at g.1.0 companion g.1.1)) }
    ensures* alive { sem 𝓛 (fsep (alive_at g.0.0) (alive_at g.1.0)) }
    ensures judges { Judges (shown_work g.0.1) (shown_work g.1.1) result }
{
    judge(&*(graph as *const Shown), &*(companion as *const Shown))
}
