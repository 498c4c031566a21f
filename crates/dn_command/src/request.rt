// What to do for a line of words.
ghost use Rattle.std.specs.Prelude.{◌≡◌, [], IfOk, MatchResult, map, option_map, string_bytes};
ghost use Rattle.clap.specs.Words.{first_of, found_of, kind_of, rows_of, subcommand_rows_of};
ghost use Rattle.dn_command.specs.Commands.{asks};
ghost use Rattle.dn_command.specs.Requests.{Answers, IsReadByClap, canon_asked};
ghost use Rattle.dn_command.specs.State.RequestKinds.{AnswersKind, IsOtherRequest, IsPlainRequest};
ghost use Rattle.dn_command.specs.Requests.{check_asked, command_asked, compare_asked, form_of, version_line};
ghost use Rattle.dn_command.specs.Requests.{show_asked, subcommand_asked};

use crate::command::{Command, plain_command};
use crate::help::VERSION;
use crate::options::parse;
use clap::error::ErrorKind;
use clap::{ArgMatches, Error};
use dn_arc_theory::Form;
use std::alloc::{AllocError, Global};

/// What to do for a line of words.
#[derive(Drop)]
pub enum Request<'a> {
    /// Run this command.
    Command(Command<'a>),
    /// Print this text on standard output: help, or the version.
    Print(String),
    /// Refuse the line: it is not a command line of this program.
    Bad,
    /// Refuse the line: memory ran out while it was read.
    Memory,
}

/// Returns what to do for a line of words, the program's name first. A plain form (`plain_command`) is recognised by
/// its words alone. `clap` reads any other line, with the subcommands `show FILE`, `check FILE [--with COMPANION]`,
/// `canon [--form 1|2] FILE` and `compare LEFT RIGHT`: `--` ends the options, an option takes its value after `=` or as
/// the next word, and no option may be repeated. `-h`, `--help` and `help` call for help, `-V` and `--version` for the
/// version. The result is `Memory` if an allocation fails, and `Bad` for any other line that is not a command.
///
/// The contract states what `clap` reads in terms of `clap`'s own definitions, which hold for every line. Laws state in
/// plain words what this means for the usual lines (`words` in dn_laws). It is only tested, not proved, that other
/// lines are read as `clap` 4 in Rust reads them. The words of the help texts are only tested too.
pub fn request_of(alloc: Global, words: &[String]) -> Request<'_>
    ensures plain { IsPlainRequest (map string_bytes words.now) result }
    ensures other { IsOtherRequest (map string_bytes words.now) result }
{
    match plain_command(words) {
        Some(command) => Request::Command(command),
        None => read(alloc, words),
    }
}

// Returns what to do for a line of words that `clap` reads.
fn read<'a>(alloc: Global, words: &'a [String]) -> Request<'a>
    ensures { IsReadByClap (map string_bytes words.entry.now) result }
{
    match parse(alloc, words) {
        Ok(matches) => {
            let request = command_or_bad(&matches);
            drop(matches);
            request
        }
        Err(error) => answer(alloc, &error),
    }
}

// Returns what to do for the matches of a successful parse.
fn command_or_bad<'a>(matches: &ArgMatches<'a>) -> Request<'a>
    ensures { Answers [] (subcommand_asked (subcommand_rows_of matches.now)) result }
{
    match command_of(matches) {
        Some(command) => Request::Command(command),
        None => Request::Bad,
    }
}

// Returns what to do for the error of a failed parse.
fn answer<'a>(alloc: Global, error: &Error) -> Request<'a>
    ensures { AnswersKind (kind_of error.now) result }
{
    match error.kind() {
        ErrorKind::OutOfMemory => Request::Memory,
        ErrorKind::DisplayHelp => printed(format!(in alloc; "{error}")),
        ErrorKind::DisplayVersion => printed(version_line(alloc)),
        _ => Request::Bad,
    }
}

// Returns the request to print this text, or `Memory` if it could not be built.
fn printed<'a>(text: Result<String, AllocError>) -> Request<'a>
    ensures { MatchResult text (λ t. result ≡ Request.Print t) (λ _. result ≡ Request.Memory) }
{
    match text {
        Ok(text) => Request::Print(text),
        Err(AllocError) => Request::Memory,
    }
}

// Returns the name and the version of the program, as a line.
fn version_line(alloc: Global) -> Result<String, AllocError>
    ensures { IfOk result (λ text. string_bytes text ≡ version_line) }
{
    format!(in alloc; "dnorm {VERSION}\n")
}

// Returns the command that the matches ask for.
fn command_of<'a>(matches: &ArgMatches<'a>) -> Option<Command<'a>>
    ensures { option_map asks result ≡ subcommand_asked (subcommand_rows_of matches.now) }
{
    let (name, inner) = matches.subcommand()?;
    command_named(name, inner)
}

// Returns the command of this name that its matches ask for.
fn command_named<'a>(name: &str, matches: &ArgMatches<'a>) -> Option<Command<'a>>
    ensures { option_map asks result ≡ command_asked name.now (rows_of (found_of matches.now)) }
{
    match name {
        "show" => show_of(matches),
        "check" => check_of(matches),
        "canon" => canon_of(matches),
        "compare" => compare_of(matches),
        _ => None,
    }
}

// Returns the `show` command of these matches.
fn show_of<'a>(matches: &ArgMatches<'a>) -> Option<Command<'a>>
    ensures { option_map asks result ≡ show_asked (rows_of (found_of matches.now)) }
{
    Some(Command::Show {
        name: value(matches, "FILE")?,
    })
}

// Returns the `check` command of these matches.
fn check_of<'a>(matches: &ArgMatches<'a>) -> Option<Command<'a>>
    ensures { option_map asks result ≡ check_asked (rows_of (found_of matches.now)) }
{
    Some(Command::Check {
        name: value(matches, "FILE")?,
        with: value(matches, "with"),
    })
}

// Returns the `canon` command of these matches.
fn canon_of<'a>(matches: &ArgMatches<'a>) -> Option<Command<'a>>
    ensures { option_map asks result ≡ canon_asked (rows_of (found_of matches.now)) }
{
    let (Some(name), Some(word)) = (value(matches, "FILE"), value(matches, "form")) else {
        return None;
    };
    match form_of(word) {
        Some(form) => Some(Command::Canon { name, form }),
        None => None,
    }
}

// Returns the `compare` command of these matches.
fn compare_of<'a>(matches: &ArgMatches<'a>) -> Option<Command<'a>>
    ensures { option_map asks result ≡ compare_asked (rows_of (found_of matches.now)) }
{
    let (Some(left), Some(right)) = (value(matches, "LEFT"), value(matches, "RIGHT")) else {
        return None;
    };
    Some(Command::Compare { left, right })
}

// Returns the first word that the matches have under this name.
#[tactic(auto, using(crate::proofs::RequestLaws::value_of_rows))]
fn value<'a>(matches: &ArgMatches<'a>, name: &str) -> Option<&'a str>
    ensures { option_map (λ s. s.now) result ≡ first_of name.now (rows_of (found_of matches.now)) }
{
    matches.get_str(name)
}

// Returns the form that a word after `--form` names.
fn form_of(word: &str) -> Option<Form>
    ensures { result ≡ form_of word.now }
{
    match word {
        "1" => Some(Form::One),
        "2" => Some(Form::Two),
        _ => None,
    }
}
