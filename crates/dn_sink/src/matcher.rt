// A sink that compares its bytes with a text.
ghost use Rattle.std.specs.Prelude.{◌≡◌, ◌↔◌, [], ◌++◌, length, take, false, true, Some, IsTrue, IsErr, IfOk};
ghost use Rattle.dn_sink.specs.State.Matches.{IsNoPrefix, IsSamePrefix, taken_of};
ghost use Rattle.dn_sink.specs.State.Turns.{Turn, Flush};

use crate::sink::{Sink, SinkFault};
use std::marker::Model;

/// Compares the bytes that it takes with a text, and keeps none of them. It takes the first byte that does not match,
/// and then no other: the next put fails.
#[derive(Drop)]
pub struct Matcher<'a> {
    text: &'a [u8],
    // The number of bytes taken that match the text.
    matched: usize,
    // The first byte that does not match, if one was taken.
    other: Option<u8>,
    failed: bool,
}

impl<'a> Model for Matcher<'a> {
    ghost use Rattle.dn_sink.specs.State.Matches.{Matched, AreMatched, put_by};

    ghost Value = { Matched };

    ghost view = { λ m. record {
      text = m.text.now;
      put = put_by m.text.now m.matched m.other;
      failed = m.failed;
    } };

    ghost invariant = { λ m. AreMatched m.text.now m.matched m.other m.failed };
}

impl<'a> Matcher<'a> {
    /// Returns a sink for this text that has taken nothing.
    pub fn new(text: &'a [u8]) -> Matcher<'a>
        ensures text { result.text ≡ text.entry.now }
        ensures put { result.put ≡ [] }
        ensures fine { result.failed ≡ false }
    {
        Matcher {
            text,
            matched: 0,
            other: None,
            failed: false,
        }
    }

    /// Whether the bytes put are exactly the text.
    pub fn is_match(&self) -> bool
        ensures same { IsTrue result ↔ (self.now.put ≡ self.now.text) }
        ensures apart { IsTrue self.now.failed → IsNoPrefix self.now.put self.now.text }
    {
        self.other.is_none() && self.matched == self.text.len()
    }
}

impl<'a> Sink for Matcher<'a> {
    // The bytes are compared at once, so the sink is always flushed.
    ghost sink = { record { taken = λ s. Some (taken_of s); has_failed = λ s. s.failed; is_flushed = λ _. true } };

    // Takes the bytes that match the text, and the first one that does not. After such a byte it takes nothing.
    fn put(&mut self, piece: &[u8]) -> Result<usize, SinkFault>
        ensures turn { Turn ⟦<Matcher<'a> as Sink>⟧.sink self.old self.new piece.now result }
        ensures fault { IsErr result ↔ IsNoPrefix self.old.put self.old.text }
        ensures text { self.new.text ≡ self.old.text }
        ensures put { IfOk result (λ n. self.new.put ≡ self.old.put ++ take n piece.now) }
    {
        if self.other.is_some() {
            self.failed = true;
            return Err(SinkFault);
        }
        let n = same_prefix(&self.text[self.matched..], piece);
        self.matched += n;
        if n == piece.len() {
            return Ok(n);
        }
        self.other = Some(piece[n]);
        Ok(n + 1)
    }

    // Changes nothing. Returns a fault if and only if the sink has failed.
    fn flush(&mut self) -> Result<(), SinkFault>
        ensures flush { Flush ⟦<Matcher<'a> as Sink>⟧.sink self.old self.new result }
        ensures again { IsErr result ↔ IsTrue self.old.failed }
        ensures same { self.new ≡ self.old }
    {
        if self.failed { Err(SinkFault) } else { Ok(()) }
    }
}

// Returns the length of the longest common prefix of a text and a piece.
fn same_prefix(text: &[u8], piece: &[u8]) -> usize
    ensures { IsSamePrefix text.now piece.now result }
{
    if text.starts_with(piece) {
        return piece.len();
    }
    for i in 0..piece.len() {
        if i == text.len() || text[i] != piece[i] {
            return i;
        }
    }
    piece.len()
}
