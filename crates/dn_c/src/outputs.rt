// What C gets of a work: arcs, items and a canonical text.
ghost use Rattle.std.specs.Prelude.{◌≡◌, ◌≤◌, ◌<◌, ◌+◌, ◌-◌, List, Some, length, take, drop};
ghost use Rattle.dn_c.specs.State.Works.{work_of};
ghost use Rattle.dn_c.specs.State.Outputs.{count_if, form_numbered, CopiesGraph, CopiesHeld, CopiesItems, CopiesText, CountsArcs, CountsListed, PrintsHeld};
ghost use Rattle.dn_c.specs.State.Reads.{shown_work};

use crate::arcs::Arc;
use crate::cursor::Cursor;
use crate::handle::Handle;
use crate::items::{Item, ItemsLeft};
use crate::next::put_next;
use crate::shown::Shown;
use crate::status::{Count, Status, fine_count, refused_with, wrong_call, wrong_count};
use crate::store::store;
use crate::work::Work;
use dn_bundle::{Bundle, Form};
use dn_canon::canon_text;
use dn_instance::{Held, Table, View};

// Returns the form with this number: 2 is form 2, and any other form 1.
pub(crate) fn form_numbered(form: u8) -> Form
    ensures { result ≡ form_numbered form }
{
    if form == 2 { Form::Two } else { Form::One }
}

/// Copies the canonical arcs of the instance after the cursor, as far as there is room, and moves the cursor behind
/// them. Returns how many it copied.
pub fn next_arcs(handle: &Shown, form: u8, cursor: &mut Cursor, out: &mut [Arc]) -> Count
    ensures copies { CopiesHeld (shown_work handle.now) form cursor.old cursor.new out.old out.new result }
    ensures fits { result.count ≤ length out.new }
{
    match handle.get() {
        Some(Work::Read(held, _)) => next_of(held, form_numbered(form), cursor, out),
        _ => wrong_count(),
    }
}

// Copies the canonical arcs of a parsed instance after the cursor.
fn next_of(held: &Held, form: Form, cursor: &mut Cursor, out: &mut [Arc]) -> Count
    ensures copies { CopiesGraph form held.now.contents cursor.old cursor.new out.old out.new result }
    ensures fits { result.count ≤ length out.new }
{
    match held.view() {
        View::Min { table, .. } => put_next(table, form, cursor, out),
        View::Max { table, .. } => put_next(table, form, cursor, out),
        View::Sp { table } => put_next(table, form, cursor, out),
        _ => wrong_count(),
    }
}

/// Returns how many canonical arcs the instance has in a form.
pub fn arc_count(handle: &Shown, form: u8) -> Count
    ensures { CountsArcs (shown_work handle.now) form result }
{
    let form = form_numbered(form);
    match handle.get() {
        Some(Work::Read(held, _)) => match held.view() {
            View::Min { table, .. } => listed_count(table, form),
            View::Max { table, .. } => listed_count(table, form),
            View::Sp { table } => listed_count(table, form),
            _ => wrong_count(),
        },
        _ => wrong_count(),
    }
}

// Returns how many canonical arcs a table has in a form.
fn listed_count<B: Bundle>(table: &Table<B>, form: Form) -> Count
    ensures { CountsListed (B.bundle.listed form) table.now result }
{
    count_if(table.arc_count(form))
}

// Returns the count, if it is below 2^64.
fn count_if(count: Option<u64>) -> Count
    ensures { result ≡ count_if count }
{
    match count {
        Some(count) => fine_count(count as usize),
        None => Count { count: 0, code: 34 },
    }
}

/// Copies the bytes of the text from the one at `from`, counted from 0, as far as there is room. Returns how many it
/// copied.
pub fn text(work: &Work, from: usize, out: &mut [u8]) -> Count
    ensures copies { CopiesText (Some work.now) from out.old out.new result }
    ensures fits { result.count ≤ length out.new }
{
    match work {
        Work::Text(text) => fine_count(copy_from(text.as_slice(), from, out)),
        _ => wrong_count(),
    }
}

// Copies the bytes from the one at `from` as far as there is room.
fn copy_from(bytes: &[u8], from: usize, out: &mut [u8]) -> usize
    ensures copies { take result out.new ≡ take (length out.old) (drop from bytes.now) }
    ensures rest { drop result out.new ≡ drop result out.old }
    ensures fits { result ≤ length out.new }
{
    if bytes.len() < from {
        return 0;
    }
    let rest = &bytes[from..];
    let n = rest.len().min(out.len());
    out[..n].copy_from_slice(&rest[..n]);
    n
}

/// Copies what the instance holds beside its arcs after the cursor, as far as there is room, and moves the cursor
/// behind it. Returns how many items it copied.
pub fn items(handle: &Shown, cursor: &mut Cursor, out: &mut [Item]) -> Count
    ensures copies { CopiesItems (shown_work handle.now) cursor.old cursor.new out.old out.new result }
    ensures fits { result.count ≤ length out.new }
{
    match handle.get() {
        Some(Work::Read(held, _)) => fine_count(ItemsLeft::of(held, cursor).put(cursor, out)),
        _ => wrong_count(),
    }
}

/// Puts the canonical text of the instance into a handle that holds nothing.
pub fn canon_into(handle: &Shown, form: u8, into: &mut Handle) -> Status
    ensures { PrintsHeld (shown_work handle.now) form (work_of into.old) (work_of into.new) result }
{
    if into.is_full() {
        return wrong_call();
    }
    match handle.get() {
        Some(work) => match work {
            Work::Read(held, alloc) => match canon_text(*alloc, held, form_numbered(form)) {
                Ok(text) => store(*alloc, into, Work::Text(text)),
                Err(refusal) => refused_with(refusal),
            },
            _ => wrong_call(),
        },
        None => wrong_call(),
    }
}
