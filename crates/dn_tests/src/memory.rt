// Each function that reads a text or writes its canonical text, where an allocation may fail.

use crate::texts::{ROADS, ROADS_CANON};
use dn_bundle::{CostArc, Curve, Form, bundle_of};
use dn_canon::{canon_run, canon_text, is_canon};
use dn_instance::{Held, Reader, Refusal, read_from, read_keep, read_text};
use dn_line::Slice;
use dn_num::append_number;
use dn_sink::Bytes;
use std::alloc::Global;
use std::io::{ErrorKind, Input, Read};

// Whether this is the canonical text, in form 2, of the parsed instance.
fn has_canon(alloc: Global, held: &Held, canon: &[u8]) -> Result<bool, Refusal> {
    Ok(canon_text(alloc, held, Form::Two)?.as_slice() == canon)
}

fn is_read(alloc: Global, text: &[u8], canon: &[u8]) -> Result<bool, Refusal> {
    has_canon(alloc, &read_text(alloc, text)?, canon)
}

fn is_read_from(alloc: Global, text: &[u8], canon: &[u8]) -> Result<bool, Refusal> {
    has_canon(alloc, &read_from(alloc, &mut Slice::new(text))?, canon)
}

fn is_kept(alloc: Global, text: &[u8], canon: &[u8]) -> Result<bool, Refusal> {
    let mut copy = Vec::new(alloc);
    let held = read_keep(alloc, &mut Slice::new(text), &mut copy)?;
    let right = has_canon(alloc, &held, canon);
    drop(held);
    Ok(right? && copy.as_slice() == text)
}

// Feeds the text byte by byte, and goes on after a refusal.
fn is_fed(alloc: Global, text: &[u8], canon: &[u8]) -> Result<bool, Refusal> {
    let mut reader = Reader::new(alloc);
    for byte in text {
        let _ = reader.feed(&[*byte]);
    }
    has_canon(alloc, &reader.finish()?, canon)
}

// If memory runs out, a prefix of the canonical text may have been put.
fn is_put(alloc: Global, text: &[u8], canon: &[u8]) -> Result<bool, Refusal> {
    let mut sink = Bytes::new(alloc);
    match canon_run(alloc, &mut Slice::new(text), &mut sink, Form::Two) {
        Ok(()) => Ok(sink.taken() == canon),
        Err(Refusal::Write) if canon.starts_with(sink.taken()) => Err(Refusal::Memory),
        Err(_) if !sink.taken().is_empty() => Ok(false),
        Err(refusal) => Err(refusal),
    }
}

// Whether the results of all functions on a text are right, except that one of them may be out of memory if
// `may_refuse`.
fn are_right(alloc: Global, text: &[u8], canon: &[u8], mut may_refuse: bool) -> bool {
    let answers = [
        is_read(alloc, text, canon),
        is_read_from(alloc, text, canon),
        is_kept(alloc, text, canon),
        is_fed(alloc, text, canon),
        is_put(alloc, text, canon),
        is_canon(alloc, canon, Form::Two),
    ];
    for answer in answers {
        match answer {
            Ok(true) => {}
            Err(Refusal::Memory) if may_refuse => may_refuse = false,
            _ => return false,
        }
    }
    true
}

// Standard input contains the canonical text in form 2 of a text, a byte 0, and the text, and `test_memory.py` refuses
// each allocation of this test in turn; or it contains nothing, and no call may be out of memory.
#[test]
fn a_refused_growth(rt: HostRuntime) {
    let mut given = Vec::new(rt.alloc());
    if let Err(error) = rt.reader().read_to_end(&mut given) {
        assert!(rt; error.kind() == ErrorKind::OutOfMemory, "standard input");
        return;
    }
    let (text, canon, may_refuse) = match given.iter().position(|it| *it == 0) {
        Some(at) => (&given[at + 1..], &given[..at], true),
        None => (ROADS.as_bytes(), ROADS_CANON.as_bytes(), false),
    };
    assert!(rt; are_right(rt.alloc(), text, canon, may_refuse));
}

#[test]
fn a_number_and_a_bundle_with_enough_memory(rt: HostRuntime) {
    let mut out = Vec::new(rt.alloc());
    assert!(rt; append_number(&mut out, 7).is_ok());
    let arc = CostArc {
        low: 1,
        cap: 3,
        cost: 5,
    };
    assert!(rt; bundle_of::<Curve>(rt.alloc(), &[arc]).is_ok());
}
