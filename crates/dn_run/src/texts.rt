// Reads texts by name.
ghost use Rattle.std.specs.Prelude.{◌≡◌, []};
ghost use Rattle.dn_instance.specs.SourceReads.{IsOfReading};
ghost use Rattle.dn_run.specs.State.CommandRuns.{taken_text};
ghost use Rattle.dn_run.specs.FilesRuns.{ReadsOne};
ghost use Rattle.dn_run.specs.Texts.{IsRefusedText, unopened};
ghost use Rattle.dn_run.specs.State.TextReads.{IsCopied, IsRead, StopsAs};

use crate::stop::{Stop, or_stop};
use dn_host::{Files, FilesFault};
use dn_instance::{Held, Refusal, read_from, read_keep};
use std::alloc::Global;

// Reads the text of this name.
pub(crate) fn read_named<'a, F: Files>(
    alloc: Global,
    name: &'a str,
    files: &mut F,
) -> Result<Held, Stop<'a>>
    ensures read { let text = taken_text F.files F.Text.source (files.old, files.new) name.now in
        StopsAs name.now (IsRead (IsRefusedText text) text) result }
    ensures asks { ReadsOne F.files F.Text.source files.old files.new name.now }
{
    match files.take(name) {
        Ok(text) => {
            let mut source = text;
            let read = read_from(alloc, &mut source);
            files.give_back(name, source);
            or_stop(name, read)
        }
        Err(fault) => Err(Stop::Refused {
            name,
            refusal: unopened(fault),
        }),
    }
}

// Reads the text of this name, and copies it into `copy`, which is empty before.
pub(crate) fn copy_named<'a, F: Files>(
    alloc: Global,
    name: &'a str,
    files: &mut F,
    copy: &mut Vec<u8>,
) -> Result<Held, Stop<'a>>
    requires { copy.old.items ≡ [] }
    ensures read { let text = taken_text F.files F.Text.source (files.old, files.new) name.now in
        StopsAs name.now (IsCopied text copy.new.items) result }
    ensures asks { ReadsOne F.files F.Text.source files.old files.new name.now }
{
    match files.take(name) {
        Ok(text) => {
            let mut source = text;
            let read = read_keep(alloc, &mut source, copy);
            files.give_back(name, source);
            or_stop(name, read)
        }
        Err(fault) => Err(Stop::Refused {
            name,
            refusal: unopened(fault),
        }),
    }
}

// Returns the reason to refuse a text that the files did not hand out.
fn unopened(fault: FilesFault) -> Refusal
    ensures is { result ≡ unopened fault }
    ensures refusal { IsOfReading result }
{
    match fault {
        FilesFault::Device => Refusal::Read,
        FilesFault::Memory => Refusal::Memory,
    }
}
