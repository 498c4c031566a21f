// The commands. Each asks files for its texts, and puts what it finds on `out`.
ghost use Rattle.std.specs.Prelude.{◌≡◌, ◌≢◌, None, Some, false, codes};
ghost use Rattle.dn_command.specs.Commands.{Canon, Check, Compare, Show, asks, names_twice};
ghost use Rattle.dn_run.specs.State.CommandRuns.{Does};

use crate::findings::{put_check, put_compared};
use crate::stop::{Stop, unwritten};
use crate::texts::{copy_named, read_named};
use dn_bundle::Form;
use dn_canon::write_canon;
use dn_command::Command;
use dn_host::Files;
use dn_instance::check_companion;
use dn_report::put_shown;
use dn_sink::Sink;
use std::alloc::Global;

// Performs a command, and returns the exit status.
pub(crate) fn perform<'a, F: Files, O: Sink>(
    alloc: Global,
    command: &Command<'a>,
    files: &mut F,
    out: &mut O,
) -> Result<u8, Stop<'a>>
    requires { names_twice (asks command.now) ≡ false }
    ensures { Does F.files F.Text.source O.sink (asks command.now)
        (files.old, files.new) (out.old, out.new) result }
{
    match *command {
        Command::Show { name } => show(alloc, name, files, out),
        Command::Check { name, with: None } => check(alloc, name, files, out),
        Command::Check {
            name,
            with: Some(with),
        } => check_with(alloc, name, with, files, out),
        Command::Canon { name, form } => canon(alloc, name, form, files, out),
        Command::Compare { left, right } => compare_named(alloc, left, right, files, out),
    }
}

// Puts the lines that describe the instance in the text of this name.
fn show<'a, F: Files, O: Sink>(
    alloc: Global,
    name: &'a str,
    files: &mut F,
    out: &mut O,
) -> Result<u8, Stop<'a>>
    ensures { Does F.files F.Text.source O.sink (Show name.now)
        (files.old, files.new) (out.old, out.new) result }
{
    let held = read_named(alloc, name, files)?;
    let put = put_shown(out, &held);
    drop(held);
    match put {
        Ok(()) => Ok(0),
        Err(_) => Err(Stop::Cut),
    }
}

// Puts the canonical text, in this form, of what the text of this name reads as.
fn canon<'a, F: Files, O: Sink>(
    alloc: Global,
    name: &'a str,
    form: Form,
    files: &mut F,
    out: &mut O,
) -> Result<u8, Stop<'a>>
    ensures { Does F.files F.Text.source O.sink (Canon name.now form)
        (files.old, files.new) (out.old, out.new) result }
{
    let held = read_named(alloc, name, files)?;
    let written = write_canon(&held, out, form);
    files.release(held);
    match written {
        Ok(()) => Ok(0),
        Err(refusal) => Err(unwritten(name, refusal)),
    }
}

// Puts the kind of the text of this name, and the forms in which it is canonical.
fn check<'a, F: Files, O: Sink>(
    alloc: Global,
    name: &'a str,
    files: &mut F,
    out: &mut O,
) -> Result<u8, Stop<'a>>
    ensures { Does F.files F.Text.source O.sink (Check name.now None)
        (files.old, files.new) (out.old, out.new) result }
{
    let mut copy = Vec::new(alloc);
    let held = copy_named(alloc, name, files, &mut copy)?;
    let put = put_check(&held, None, &copy, out);
    drop(held);
    put
}

// Puts the kinds of the text and of its companion, which must fit, and the forms in which the text is canonical.
fn check_with<'a, F: Files, O: Sink>(
    alloc: Global,
    name: &'a str,
    companion: &'a str,
    files: &mut F,
    out: &mut O,
) -> Result<u8, Stop<'a>>
    requires { name.now ≡ codes "-" → companion.now ≢ codes "-" }
    ensures { Does F.files F.Text.source O.sink (Check name.now (Some companion.now))
        (files.old, files.new) (out.old, out.new) result }
{
    let mut copy = Vec::new(alloc);
    let graph = copy_named(alloc, name, files, &mut copy)?;
    match read_named(alloc, companion, files) {
        Ok(held) => {
            let fits = check_companion(&graph, &held);
            let with = held.kind();
            drop(held);
            match fits {
                Ok(()) => {
                    let put = put_check(&graph, Some(with), &copy, out);
                    drop(graph);
                    put
                }
                Err(fault) => {
                    drop(graph);
                    Err(Stop::Unfit {
                        name: companion,
                        fault,
                    })
                }
            }
        }
        Err(stop) => {
            drop(graph);
            Err(stop)
        }
    }
}

// Puts the first difference between the texts of these names, or that they are the same problem.
fn compare_named<'a, F: Files, O: Sink>(
    alloc: Global,
    left: &'a str,
    right: &'a str,
    files: &mut F,
    out: &mut O,
) -> Result<u8, Stop<'a>>
    requires { left.now ≡ codes "-" → right.now ≢ codes "-" }
    ensures { Does F.files F.Text.source O.sink (Compare left.now right.now)
        (files.old, files.new) (out.old, out.new) result }
{
    let one = read_named(alloc, left, files)?;
    match read_named(alloc, right, files) {
        Ok(other) => {
            let found = put_compared(&one, &other, out);
            drop(other);
            drop(one);
            found
        }
        Err(stop) => {
            drop(one);
            Err(stop)
        }
    }
}
