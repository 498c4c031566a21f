// A run of the program over the texts of an opener.
ghost use Rattle.std.specs.Prelude.{◌≡◌, ◌≤◌, MatchResult, map, string_bytes};
ghost use Rattle.dn_run.specs.Streams.{sink_run};
ghost use Rattle.dn_host.specs.Openers.{behind_of};
ghost use Rattle.dn_run.specs.FilesRuns.{files_run, in_full};
ghost use Rattle.dn_run.specs.HostRuns.{NoWords};
ghost use Rattle.dn_run.specs.Statuses.{RanPlain};
ghost use Rattle.dn_run.specs.Words.{Ran};

use crate::runs::{refuse_words, run};
use dn_host::opened_files::{OpenedFiles, OpenedSource};
use dn_host::{Files, Opener};
use dn_instance::Refusal;
use dn_line::ByteSource;
use dn_report::put_fault_line;
use dn_sink::Sink;
use std::alloc::Global;
use std::io;
use std::io::ErrorKind;

/// Runs the program with the words of the command line, the program's name first, over the texts of an opener, and
/// returns the exit status. Before and after that, it opens nothing. If the words could not be collected, it opens
/// nothing at all and says why: words that are not UTF-8 are no command, and any other error is a lack of memory.
pub fn run_on<'a, P: Opener, O: Sink, E: Sink>(
    alloc: Global,
    words: &io::Result<Vec<String>>,
    files: &mut OpenedFiles<'a, P>,
    out: &mut O,
    err: &mut E,
) -> u8
    ensures status { result ≤ 4 }
    ensures ran { let o = sink_run O.sink (out.old, out.new) in
        let e = sink_run E.sink (err.old, err.new) in
        MatchResult words.now
        (λ ws. RanPlain (map string_bytes ws.items) (behind_of P.opener files.old.opener.now) o e result)
        (λ error. NoWords o e error result) }
    ensures also { let o = sink_run O.sink (out.old, out.new) in
        let e = sink_run E.sink (err.old, err.new) in
        MatchResult words.now
        (λ ws. Ran (map string_bytes ws.items) (in_full (files_run ⟦<OpenedFiles<'a, P> as Files>⟧.files
        ⟦<OpenedSource<P> as ByteSource>⟧.source (files.old, files.new))) o e result)
        (λ error. files.new ≡ files.old) }
{
    match words {
        Ok(words) => run(alloc, words, files, out, err),
        Err(error) => match error.kind() {
            ErrorKind::InvalidData => refuse_words(err),
            _ => {
                let _ = put_fault_line(err, "dnorm", &Refusal::Memory);
                4
            }
        },
    }
}
