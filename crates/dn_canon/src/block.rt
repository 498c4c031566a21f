// A buffer on the stack that gathers lines of a text, so that the sink takes many at a time.
ghost use Rattle.std.specs.Prelude.{◌≡◌, ℕ, List, ◌+◌, ◌*◌, ◌<◌, ◌≤◌, [], ◌∷◌, ◌++◌, length, map, take, OnOk};
ghost use Rattle.std.specs.Fmt.{signed_decimal};
ghost use Rattle.dn_line.specs.declared.word.Keyword.TheVariants.{A};
ghost use Rattle.dn_sink.specs.Rows.{line_text};
ghost use Rattle.dn_sink.specs.State.Spaced.{spaced};
ghost use Rattle.dn_canon.specs.State.Blocks.{HasRoom, Passes};
ghost use Rattle.dn_canon.specs.Prints.{word_row};

use dn_bundle::Parts;
use dn_num::put_number;
use dn_sink::{Sink, SinkFault, put_all};
use std::marker::Model;

// The size of a block in bytes.
const SIZE: usize = 8192;
// The free capacity that a line needs. The longest line, that of a `min` arc, has 107 bytes, and `put_number` may
// overwrite 5 bytes after the end of its number.
const LINE: usize = 128;

// The bytes of a text that are not put yet.
#[derive(Drop)]
pub(crate) struct Block {
    bytes: [u8; SIZE],
    used: usize,
}

impl Model for Block {
    ghost use Rattle.std.specs.Prelude.{ℕ, ◌≤◌, List, take};
    ghost use Rattle.dn_canon.specs.declared.block.TheConstants.{SIZE};

    ghost Value = { List ℕ };

    ghost view = { λ b. take b.used b.bytes };

    ghost invariant = { λ b. b.used ≤ SIZE };
}

impl Block {
    // Returns an empty block.
    pub(crate) fn new() -> Block
        ensures { result ≡ [] }
    {
        Block {
            bytes: [0; SIZE],
            used: 0,
        }
    }

    // Appends a byte.
    pub(crate) fn byte(&mut self, byte: u8)
        requires { length self.old < SIZE }
        ensures { self.new ≡ self.old ++ byte ∷ [] }
    {
        self.bytes[self.used] = byte;
        self.used += 1;
    }

    // Appends bytes.
    pub(crate) fn push(&mut self, bytes: &[u8])
        requires { length self.old + length bytes.now ≤ SIZE }
        ensures { self.new ≡ self.old ++ bytes.now }
    {
        self.bytes[self.used..self.used + bytes.len()].copy_from_slice(bytes);
        self.used += bytes.len();
    }

    // Appends a space and a number.
    pub(crate) fn number(&mut self, number: &i64)
        requires { length self.old + 26 ≤ SIZE }
        ensures text { self.new ≡ self.old ++ 32 ∷ signed_decimal number.now }
        ensures within { length self.new ≤ length self.old + 21 }
    {
        self.used = put_spaced(&mut self.bytes, self.used, number);
    }

    // Appends the line of a letter and numbers.
    pub(crate) fn line(&mut self, letter: u8, numbers: &[i64])
        requires room { HasRoom self.old }
        requires few { length numbers.now ≤ 5 }
        ensures { self.new ≡ self.old ++ line_text ((letter ∷ []) ∷ map signed_decimal numbers.now) }
    {
        self.bytes[self.used] = letter;
        let end = put_numbers(&mut self.bytes, self.used + 1, numbers);
        self.bytes[end] = b'\n';
        self.used = end + 1;
    }

    // Appends the line of an arc at its ordered pair.
    #[inline(always)]
    pub(crate) fn arc<P: Parts>(&mut self, pair: &(i64, i64), arc: &P)
        requires room { HasRoom self.old }
        requires few { length (P.numbers arc.now) ≤ 3 }
        ensures { self.new ≡ self.old ++ line_text (word_row A (pair.now.0 ∷ pair.now.1 ∷ P.numbers arc.now)) }
    {
        self.bytes[self.used] = b'a';
        let tail_end = put_spaced(&mut self.bytes, self.used + 1, &pair.0);
        let head_end = put_spaced(&mut self.bytes, tail_end, &pair.1);
        let end = put_parts(&mut self.bytes, head_end, arc);
        self.bytes[end] = b'\n';
        self.used = end + 1;
    }

    // Puts the block into a sink and empties it, if another line might not fit.
    #[inline(always)]
    pub(crate) fn make_room<K: Sink>(&mut self, sink: &mut K) -> Result<(), SinkFault>
        ensures put { Passes K.sink sink.old sink.new self.new self.old result }
        ensures room { OnOk result (HasRoom self.new) }
    {
        if SIZE - LINE < self.used {
            put_all(sink, self.bytes())?;
            self.used = 0;
        }
        Ok(())
    }

    // Returns the bytes.
    pub(crate) fn bytes(&self) -> &[u8]
        ensures { result.now ≡ self.now }
    {
        &self.bytes[..self.used]
    }
}

// Writes a space and a number at this position, and returns the position after them.
#[inline(always)]
fn put_spaced(bytes: &mut [u8; SIZE], at: usize, number: &i64) -> usize
    requires { at + 26 ≤ SIZE }
    ensures text { take result bytes.new ≡ take at bytes.old ++ 32 ∷ signed_decimal number.now }
    ensures within { result ≤ at + 21 }
{
    bytes[at] = b' ';
    put_number(bytes, at + 1, number)
}

// Writes numbers at this position, each after a space, and returns the position after them.
#[inline(always)]
fn put_numbers(bytes: &mut [u8; SIZE], at: usize, numbers: &[i64]) -> usize
    requires { at + 21 * length numbers.now + 5 ≤ SIZE }
    ensures text { take result bytes.new ≡ take at bytes.old ++ spaced (map signed_decimal numbers.now) }
    ensures within { result ≤ at + 21 * length numbers.now }
{
    let mut end = at;
    for number in numbers {
        end = put_spaced(bytes, end, number);
    }
    end
}

// Writes the numbers of an arc at this position, each after a space, and returns the position after them.
#[inline(always)]
fn put_parts<P: Parts>(bytes: &mut [u8; SIZE], at: usize, arc: &P) -> usize
    requires { at + 21 * length (P.numbers arc.now) + 5 ≤ SIZE }
    ensures text { take result bytes.new ≡ take at bytes.old ++ spaced (map signed_decimal (P.numbers arc.now)) }
    ensures within { result ≤ at + 21 * length (P.numbers arc.now) }
{
    let mut end = at;
    for i in 0..arc.len() {
        let number = arc.part(i);
        end = put_spaced(bytes, end, &number);
    }
    end
}
