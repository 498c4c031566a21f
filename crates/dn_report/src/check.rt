// The lines that `check` prints for accepted texts.
ghost use Rattle.std.specs.Prelude.{◌≡◌, ◌∷◌, codes, IsTrue, OnOk};
ghost use Rattle.dn_sink.specs.Rows.{line_text, text_of};
ghost use Rattle.dn_sink.specs.Puts.{Puts};
ghost use Rattle.dn_report.specs.Checks.{checked_rows, form_words};

use crate::lines::{put_lines, word_line};
use dn_line::Kind;
use dn_sink::{LineBuffer, Sink, SinkFault};

/// The forms in which a text is the canonical text of what it reads as.
#[derive(Clone, Copy)]
pub struct Forms {
    /// Whether it is in form 1.
    pub one: bool,
    /// Whether it is in form 2.
    pub two: bool,
}

/// Puts the lines of `check`: the kind of an accepted text, the kind of its companion if there is one, which must fit,
/// and the forms in which the text is canonical. Puts one line at a time, and then flushes the sink. Allocates nothing.
///
/// # Errors
///
/// The sink failed. It has taken a prefix of the text.
pub fn put_checked<K: Sink>(
    sink: &mut K,
    kind: Kind,
    companion: Option<Kind>,
    forms: Forms,
) -> Result<(), SinkFault>
    ensures text { Puts K.sink sink.old sink.new (text_of (checked_rows kind companion forms)) result }
    ensures flushed { OnOk result (IsTrue (K.sink.is_flushed sink.new)) }
{
    put_findings(sink, kind, companion, forms)?;
    sink.flush()
}

// Puts the lines of `put_checked`.
fn put_findings<K: Sink>(
    sink: &mut K,
    kind: Kind,
    companion: Option<Kind>,
    forms: Forms,
) -> Result<(), SinkFault>
    ensures { Puts K.sink sink.old sink.new (text_of (checked_rows kind companion forms)) result }
{
    let accepted = word_line(b"accepted", kind.name().as_bytes());
    let forms = forms_line(forms);
    match companion {
        Some(companion) => {
            let fits = word_line(b"fits", companion.name().as_bytes());
            put_lines(sink, &[accepted, fits, forms])
        }
        None => put_lines(sink, &[accepted, forms]),
    }
}

// Returns the line of the forms in which a text is canonical.
fn forms_line(forms: Forms) -> LineBuffer
    ensures { result ≡ line_text (codes "forms" ∷ form_words forms.one forms.two) }
{
    match (forms.one, forms.two) {
        (true, true) => word_line(b"forms", b"1 2"),
        (true, false) => word_line(b"forms", b"1"),
        (false, true) => word_line(b"forms", b"2"),
        (false, false) => word_line(b"forms", b"none"),
    }
}
