// Reads a whole text from memory or from a source.
ghost use Rattle.std.specs.Prelude.{◌≡◌, ◌++◌, [], ℕ, List, Bool, true, false, Err, IfErr, IfOk, IsTrue, None, OnErr, OnOk};
ghost use Rattle.dn_instance.specs.State.FedSources.{IsFedAll};
ghost use Rattle.dn_instance.specs.State.ReaderResults.{Outcome, refusal_of};
ghost use Rattle.dn_instance.specs.State.ReaderStates.{ReaderAt};
ghost use Rattle.dn_instance.specs.SourceReads.{IsOfReading};
ghost use Rattle.dn_instance.specs.State.SourceResults.{CopiesSource, HoldsCopied, HoldsKept, HoldsSome, IsKept, KeepsSource, ReadsSource, SourceLeft, StopsSource};

use crate::held::Held;
use crate::reader::Reader;
use crate::refusal::Refusal;
use dn_line::ByteSource;
use std::alloc::Global;

// How many pulls may give bytes before a source counts as endless.
const PULLS: u64 = 1 << 40;

// How many bytes a source is asked for at once, at most.
const PIECE: usize = 4096;

/// Reads a text from memory, and returns its parsed instance.
///
/// # Errors
///
/// `Text` with the first fault of the text. `Memory` only at a line without a fault.
pub fn read_text(alloc: Global, text: &[u8]) -> Result<Held, Refusal>
    ensures { Outcome text.now result }
{
    let mut reader = Reader::new(alloc);
    match reader.feed(text) {
        Ok(()) => reader.finish(),
        Err(refusal) => {
            drop(reader);
            Err(refusal)
        }
    }
}

/// Reads the text of a source to its end, and returns its parsed instance. The parsed instance represents what some
/// text reads as, even if nothing is known about the bytes of the source. Pulls no more once the text is refused, and
/// not past its end.
///
/// # Errors
///
/// `Text` with the first fault of the text. `Memory` only at a line without a fault. `Read` if the source failed.
/// `Endless` if 2^40 pulls gave bytes and the source did not end. `Read` and `Endless` only if no complete line of the
/// bytes given has a fault.
pub fn read_from<S: ByteSource>(alloc: Global, source: &mut S) -> Result<Held, Refusal>
    ensures held { IfOk result HoldsSome }
    ensures outcome { ReadsSource S.source source.old source.new result }
    ensures refusal { IfErr result IsOfReading }
    ensures left { SourceLeft S.source source.old source.new result }
{
    read_all(alloc, source, &mut Unkept)
}

/// Reads the text of a source as `read_from` does, and appends each piece to `text` before reading it. `text` gains all
/// bytes that the source gives, except a piece for which an allocation fails.
///
/// # Errors
///
/// The errors of `read_from`. `Memory` also if an allocation for the copy of a piece fails; then no complete line of
/// the earlier pieces has a fault.
pub fn read_keep<S: ByteSource>(
    alloc: Global,
    source: &mut S,
    text: &mut Vec<u8>,
) -> Result<Held, Refusal>
    ensures prefix { (more : List ℕ) × (text.new.items ≡ text.old.items ++ more) }
    ensures held { IfOk result (HoldsCopied text.old.items text.new.items) }
    ensures outcome { CopiesSource S.source source.old source.new text.old.items text.new.items result }
    ensures refusal { IfErr result IsOfReading }
    ensures left { SourceLeft S.source source.old source.new result }
{
    read_all(alloc, source, text)
}

// What may keep the bytes that are read.
trait Keep {
    // Whether bytes are kept.
    ghost keeps: { Bool };

    // The bytes kept so far.
    ghost kept: { Self → List ℕ };

    // Appends a piece, if bytes are kept. If an allocation fails, returns `Memory`, and nothing changes.
    fn keep(&mut self, piece: &[u8]) -> Result<(), Refusal>
        ensures ok { OnOk result (IsKept keeps (kept self.old) (kept self.new) piece.now) }
        ensures err { OnErr result (IsTrue keeps × (kept self.new ≡ kept self.old)) }
        ensures memory { IfErr result (λ refusal. refusal ≡ Refusal.Memory) };
}

// Keeps no bytes.
#[derive(Drop)]
struct Unkept;

impl Keep for Unkept {
    ghost keeps = { false };

    ghost kept = { λ _. [] };

    fn keep(&mut self, _piece: &[u8]) -> Result<(), Refusal> {
        Ok(())
    }
}

impl Keep for Vec<u8> {
    ghost keeps = { true };

    ghost kept = { λ text. text.items };

    fn keep(&mut self, piece: &[u8]) -> Result<(), Refusal> {
        match self.extend_from_slice(piece) {
            Ok(()) => Ok(()),
            Err(_) => Err(Refusal::Memory),
        }
    }
}

// Reads the text of a source to its end. Each piece is kept in `text` before it is read, if bytes are kept.
fn read_all<S: ByteSource, K: Keep>(
    alloc: Global,
    source: &mut S,
    text: &mut K,
) -> Result<Held, Refusal>
    ensures prefix { (more : List ℕ) × IsKept K.keeps (K.kept text.old) (K.kept text.new) more }
    ensures held { IfOk result (HoldsKept K.keeps (K.kept text.old) (K.kept text.new)) }
    ensures outcome { KeepsSource S.source source.old source.new K.keeps (K.kept text.old) (K.kept text.new) result }
    ensures refusal { IfErr result IsOfReading }
    ensures left { SourceLeft S.source source.old source.new result }
{
    let mut reader = Reader::new(alloc);
    match feed_all(source, text, &mut reader) {
        Ok(()) => reader.finish(),
        Err(refusal) => {
            drop(reader);
            Err(refusal)
        }
    }
}

// Feeds a new reader all pieces of a source. Each piece is kept in `text` before it is read, if bytes are kept.
fn feed_all<S: ByteSource, K: Keep>(
    source: &mut S,
    text: &mut K,
    reader: &mut Reader,
) -> Result<(), Refusal>
    requires new { ReaderAt reader.old [] }
    requires fine { refusal_of reader.old ≡ None }
    ensures fed { OnOk result ((given : List ℕ) × IsFedAll S.source source.old source.new reader.new given
        × IsKept K.keeps (K.kept text.old) (K.kept text.new) given) }
    ensures prefix { (more : List ℕ) × IsKept K.keeps (K.kept text.old) (K.kept text.new) more }
    ensures outcome { StopsSource S.source source.old source.new K.keeps (K.kept text.old) (K.kept text.new) result }
    ensures refusal { IfErr result IsOfReading }
    ensures left { SourceLeft S.source source.old source.new result }
{
    for _ in 0..PULLS {
        if let Err(_) = source.pull(PIECE) {
            return Err(Refusal::Read);
        }
        let piece = source.piece();
        if piece.is_empty() {
            return Ok(());
        }
        if let Err(refusal) = text.keep(piece) {
            return Err(refusal);
        }
        if let Err(refusal) = reader.feed(piece) {
            return Err(refusal);
        }
    }
    Err(Refusal::Endless)
}
