// A run of the program, over any files and any streams.
ghost use Rattle.std.specs.Prelude.{◌≡◌, ◌≤◌, map, string_bytes};
ghost use Rattle.dn_run.specs.FilesRuns.{files_run, in_full};
ghost use Rattle.dn_run.specs.Statuses.{RanPlain};
ghost use Rattle.dn_run.specs.Streams.{TakesLine, sink_run};
ghost use Rattle.dn_run.specs.Words.{PrintsText, Ran, bad_command_line};

use crate::commands::perform;
use crate::stop::Stop;
use dn_command::{Request, request_of};
use dn_host::Files;
use dn_instance::Refusal;
use dn_report::put_fault_line;
use dn_sink::{Sink, put_and_flush};
use std::alloc::Global;

/// Does what the words ask for, the program's name first, and returns the exit status: 0 if that is done, and texts
/// that are compared are the same problem; 1 if they differ; 2 if a text is refused or a companion does not fit; 3 if
/// the words are no command, or name standard input for two texts; 4 if an allocation, a file, a source or `out`
/// failed, or a source has no end. On 2, 3 and 4 it puts one line on `err` that says why, and flushes `err`. It ignores
/// a fault of `err`.
pub fn run<F: Files, O: Sink, E: Sink>(
    alloc: Global,
    words: &[String],
    files: &mut F,
    out: &mut O,
    err: &mut E,
) -> u8
    ensures status { result ≤ 4 }
    ensures ran { RanPlain (map string_bytes words.now) (F.files.behind files.old)
        (sink_run O.sink (out.old, out.new)) (sink_run E.sink (err.old, err.new)) result }
    ensures also { Ran (map string_bytes words.now) (in_full (files_run F.files F.Text.source (files.old, files.new)))
        (sink_run O.sink (out.old, out.new)) (sink_run E.sink (err.old, err.new)) result }
{
    match request_of(alloc, words) {
        Request::Command(command) if command.names_standard_input_twice() => {
            let _ = put_and_flush(err, b"dnorm: standard input named twice\n");
            3
        }
        Request::Command(command) => match perform(alloc, &command, files, out) {
            Ok(status) => status,
            Err(stop) => {
                stop.tell(err);
                stop.status()
            }
        },
        Request::Print(text) => print(&text, out, err),
        Request::Bad => refuse_words(err),
        Request::Memory => {
            let _ = put_fault_line(err, "dnorm", &Refusal::Memory);
            4
        }
    }
}

// Puts the line for words that are no command on `err`, flushes `err`, and returns the exit status, 3. Ignores a fault
// of `err`.
pub(crate) fn refuse_words<E: Sink>(err: &mut E) -> u8
    ensures status { result ≡ 3 }
    ensures said { TakesLine (sink_run E.sink (err.old, err.new)) bad_command_line }
{
    let _ = put_and_flush(err, b"dnorm: bad command line\n");
    3
}

// Puts a text on `out`, and returns the exit status.
fn print<O: Sink, E: Sink>(text: &str, out: &mut O, err: &mut E) -> u8
    ensures { PrintsText text.now (sink_run O.sink (out.old, out.new))
        (sink_run E.sink (err.old, err.new)) result }
{
    match put_and_flush(out, text.as_bytes()) {
        Ok(()) => 0,
        Err(_) => {
            let stop = Stop::Cut;
            stop.tell(err);
            stop.status()
        }
    }
}
