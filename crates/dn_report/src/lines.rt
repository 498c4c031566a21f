// Lines of two words, and putting lines.
ghost use Rattle.std.specs.Prelude.{◌≡◌, ◌≤◌, pos, [], ◌∷◌, length};
ghost use Rattle.std.specs.List.{concat};
ghost use Rattle.dn_sink.specs.Rows.{line_text};
ghost use Rattle.dn_sink.specs.Puts.{Puts};
ghost use Rattle.dn_report.specs.Shows.{number_row};

use dn_sink::{LineBuffer, Sink, SinkFault};

// Puts lines, each as one piece.
pub(crate) fn put_lines<K: Sink>(sink: &mut K, lines: &[LineBuffer]) -> Result<(), SinkFault>
    ensures { Puts K.sink sink.old sink.new (concat lines.now) result }
{
    for line in lines {
        line.put(sink)?;
    }
    Ok(())
}

// Returns the line of two words.
pub(crate) fn word_line(word: &[u8], value: &[u8]) -> LineBuffer
    requires word { length word.now ≤ 8 }
    requires value { length value.now ≤ 8 }
    ensures { result ≡ line_text (word.now ∷ value.now ∷ []) }
{
    let mut line = LineBuffer::new(word);
    line.word(value);
    line.newline();
    line
}

// Returns the line of a word and a number.
pub(crate) fn number_line(word: &[u8], number: &i64) -> LineBuffer
    requires { length word.now ≤ 8 }
    ensures { result ≡ line_text (number_row word.now number.now) }
{
    let mut line = LineBuffer::new(word);
    line.number(number);
    line.newline();
    line
}

// Returns the line of a word and a count.
pub(crate) fn count_line(word: &[u8], count: u64) -> LineBuffer
    requires { length word.now ≤ 8 }
    ensures { result ≡ line_text (number_row word.now (pos count)) }
{
    let mut line = LineBuffer::new(word);
    line.count(count);
    line.newline();
    line
}
