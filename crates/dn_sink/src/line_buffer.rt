// A line of words, built on the stack.
ghost use Rattle.std.specs.Prelude.{◌≡◌, ◌+◌, ◌<◌, ◌≤◌, pos, ◌∷◌, [], ◌++◌, length};
ghost use Rattle.std.specs.Fmt.{signed_decimal};
ghost use Rattle.dn_sink.specs.Puts.{Puts};

use crate::sink::{Sink, SinkFault, put_all};
use itoa::Buffer;
use std::marker::Model;

// The greatest length of a line in bytes: two numbers of 128 bits, three of 64 bits, and 46 bytes of words.
const ROOM: usize = 192;

/// The bytes of a line so far, at most 192.
#[derive(Drop)]
pub struct LineBuffer {
    bytes: [u8; ROOM],
    used: usize,
}

impl Model for LineBuffer {
    ghost use Rattle.std.specs.Prelude.{ℕ, ◌≤◌, List, take};
    ghost use Rattle.dn_sink.specs.declared.line_buffer.TheConstants.{ROOM};

    ghost Value = { List ℕ };

    ghost view = { λ l. take l.used l.bytes };

    ghost invariant = { λ l. l.used ≤ ROOM };
}

impl LineBuffer {
    /// Returns a line that begins with this word.
    pub fn new(word: &[u8]) -> LineBuffer
        requires { length word.now ≤ ROOM }
        ensures { result ≡ word.now }
    {
        let mut line = LineBuffer {
            bytes: [0; ROOM],
            used: 0,
        };
        line.push(word);
        line
    }

    /// Clears the line, and begins another with this word.
    pub fn begin(&mut self, word: &[u8])
        requires { length word.now ≤ ROOM }
        ensures { self.new ≡ word.now }
    {
        self.used = 0;
        self.push(word);
    }

    /// Appends a space and a word.
    pub fn word(&mut self, word: &[u8])
        requires { length self.old + length word.now < ROOM }
        ensures { self.new ≡ self.old ++ 32 ∷ word.now }
    {
        self.byte(b' ');
        self.push(word);
    }

    /// Appends a space and a number: 2 to 21 bytes.
    pub fn number(&mut self, number: &i64)
        requires { length self.old + 21 ≤ ROOM }
        ensures text { self.new ≡ self.old ++ 32 ∷ signed_decimal number.now }
        ensures within { length self.new ≤ length self.old + 21 }
    {
        let mut digits = Buffer::new();
        self.word(digits.format(*number).as_bytes());
    }

    /// Appends a space and a count: 2 to 21 bytes.
    pub fn count(&mut self, count: u64)
        requires { length self.old + 21 ≤ ROOM }
        ensures text { self.new ≡ self.old ++ 32 ∷ signed_decimal (pos count) }
        ensures within { length self.new ≤ length self.old + 21 }
    {
        let mut buffer = Buffer::new();
        self.word(buffer.format(count).as_bytes());
    }

    /// Appends a space and a number of 128 bits: 2 to 41 bytes.
    pub fn wide_number(&mut self, number: &i128)
        requires { length self.old + 41 ≤ ROOM }
        ensures text { self.new ≡ self.old ++ 32 ∷ signed_decimal number.now }
        ensures within { length self.new ≤ length self.old + 41 }
    {
        let mut buffer = Buffer::new();
        self.word(buffer.format(*number).as_bytes());
    }

    /// Appends an LF, which ends the line.
    pub fn newline(&mut self)
        requires { length self.old < ROOM }
        ensures { self.new ≡ self.old ++ 10 ∷ [] }
    {
        self.byte(b'\n');
    }

    /// Puts the line into a sink, as one piece.
    ///
    /// # Errors
    ///
    /// The sink failed, or took 0 bytes of the rest. It has then taken a prefix of the line.
    pub fn put<K: Sink>(&self, sink: &mut K) -> Result<(), SinkFault>
        ensures { Puts K.sink sink.old sink.new self.now result }
    {
        put_all(sink, &self.bytes[..self.used])
    }

    // Appends a byte.
    fn byte(&mut self, byte: u8)
        requires { length self.old < ROOM }
        ensures { self.new ≡ self.old ++ byte ∷ [] }
    {
        self.bytes[self.used] = byte;
        self.used += 1;
    }

    // Appends bytes.
    fn push(&mut self, bytes: &[u8])
        requires { length self.old + length bytes.now ≤ ROOM }
        ensures { self.new ≡ self.old ++ bytes.now }
    {
        self.bytes[self.used..self.used + bytes.len()].copy_from_slice(bytes);
        self.used += bytes.len();
    }
}
