// The options that `clap` reads command lines with.
ghost use Rattle.std.specs.Prelude.{◌≡◌, false, IfOk, map, string_bytes};
ghost use Rattle.clap.specs.Words.{App, app_of, new_app, rule_of, with_rule, with_subcommand};
ghost use Rattle.clap.specs.declared.builder.command.Command.TheViews.{out-Command as fields_of};
ghost use Rattle.dn_command.specs.Options.{bare_app, canon_app, check_app, compare_app, dnorm_app};
ghost use Rattle.dn_command.specs.State.Parses.{IsParseOf};
ghost use Rattle.dn_command.specs.Options.{form_option, form_option_words, option_rule, show_app, text_rule};
ghost use Rattle.dn_command.specs.Options.{with_option};

use crate::help;
use clap::{Arg, ArgAction, ArgMatches, Command, Error};
use std::alloc::{AllocError, Global};

// Reads a line of words with `clap`.
pub(crate) fn parse<'a>(alloc: Global, words: &'a [String]) -> Result<ArgMatches<'a>, Error>
    ensures { IsParseOf (map string_bytes words.entry.now) result }
{
    parse_with(alloc, &["1", "2"], words)
}

// Reads a line of words with `clap`, where FORM is one of these words.
fn parse_with<'a>(
    alloc: Global,
    forms: &'a [&'a str],
    words: &'a [String],
) -> Result<ArgMatches<'a>, Error>
    requires { map (λ s. s.now) forms.now ≡ form_option_words }
    ensures { IsParseOf (map string_bytes words.entry.now) result }
{
    match dnorm_command(alloc, forms) {
        Ok(command) => command.try_get_matches_from(words),
        Err(error) => Err(Error::from(error)),
    }
}

// Builds the program with its commands.
fn dnorm_command<'a>(alloc: Global, forms: &'a [&'a str]) -> Result<Command<'a>, AllocError>
    ensures app { IfOk result (λ c. app_of c ≡ dnorm_app forms.entry) }
{
    let program = add_command(
        add_command(Ok(bare_command(alloc)), show_command(alloc)),
        check_command(alloc),
    );
    add_command(
        add_command(program, canon_command(alloc, forms)),
        compare_command(alloc),
    )
}

// Adds a command to the program. Fails if either could not be built.
fn add_command<'a>(
    program: Result<Command<'a>, AllocError>,
    command: Result<Command<'a>, AllocError>,
) -> Result<Command<'a>, AllocError>
    requires local { IfOk command (λ c. (fields_of c).has_globals ≡ false) }
    ensures app { (before added : App) → IfOk program.entry (λ p. app_of p ≡ before)
        → IfOk command.entry (λ c. app_of c ≡ added)
        → IfOk result (λ r. app_of r ≡ with_subcommand before added.top) }
{
    if let Ok(program) = program {
        if let Ok(command) = command {
            return program.subcommand(command);
        }
        drop(program);
    } else {
        drop(command);
    }
    Err(AllocError)
}

// Builds the program without its commands.
fn bare_command<'a>(alloc: Global) -> Command<'a>
    ensures app { app_of result ≡ bare_app }
    ensures local { (fields_of result).has_globals ≡ false }
{
    named_command(alloc, "dnorm", help::PROGRAM, help::SHORT_END)
        .version(help::VERSION)
        .after_long_help(help::LONG_END)
        .subcommand_required(true)
}

// Builds `show FILE`.
fn show_command<'a>(alloc: Global) -> Result<Command<'a>, AllocError>
    ensures app { IfOk result (λ c. app_of c ≡ show_app) }
    ensures local { IfOk result (λ c. (fields_of c).has_globals ≡ false) }
{
    text_command(alloc, "show", help::SHOW, help::SHOW_END, "FILE")
}

// Builds `check FILE [--with COMPANION]`.
fn check_command<'a>(alloc: Global) -> Result<Command<'a>, AllocError>
    ensures app { IfOk result (λ c. app_of c ≡ check_app) }
    ensures local { IfOk result (λ c. (fields_of c).has_globals ≡ false) }
{
    wider_command(
        alloc,
        "check",
        help::CHECK,
        help::CHECK_END,
        "FILE",
        with_option(alloc),
    )
}

// Builds `canon [--form FORM] FILE`.
fn canon_command<'a>(alloc: Global, forms: &'a [&'a str]) -> Result<Command<'a>, AllocError>
    ensures app { IfOk result (λ c. app_of c ≡ canon_app forms.entry) }
    ensures local { IfOk result (λ c. (fields_of c).has_globals ≡ false) }
{
    wider_command(
        alloc,
        "canon",
        help::CANON,
        help::CANON_END,
        "FILE",
        form_option(alloc, forms),
    )
}

// Builds `compare LEFT RIGHT`.
fn compare_command<'a>(alloc: Global) -> Result<Command<'a>, AllocError>
    ensures app { IfOk result (λ c. app_of c ≡ compare_app) }
    ensures local { IfOk result (λ c. (fields_of c).has_globals ≡ false) }
{
    wider_command(
        alloc,
        "compare",
        help::COMPARE,
        help::COMPARE_END,
        "LEFT",
        text(alloc, "RIGHT", help::TEXT),
    )
}

// Builds a command of this name, with a word that names a text, and one more argument. Its help ends with `end`.
fn wider_command<'a>(
    alloc: Global,
    name: &'a str,
    about: &'a str,
    end: &'a str,
    text_name: &'a str,
    more: Arg<'a>,
) -> Result<Command<'a>, AllocError>
    requires local { more.global ≡ false }
    ensures app { IfOk result (λ c. app_of c
        ≡ with_rule (with_rule (new_app name.entry.now) (text_rule text_name.entry.now)) (rule_of more.entry)) }
    ensures local { IfOk result (λ c. (fields_of c).has_globals ≡ false) }
{
    if let Ok(command) = text_command(alloc, name, about, end, text_name) {
        return command.arg(more);
    }
    drop(more);
    Err(AllocError)
}

// Builds a command of this name, with a word that names a text. Its help ends with `end`.
fn text_command<'a>(
    alloc: Global,
    name: &'a str,
    about: &'a str,
    end: &'a str,
    text_name: &'a str,
) -> Result<Command<'a>, AllocError>
    ensures app { IfOk result (λ c.
        app_of c ≡ with_rule (new_app name.entry.now) (text_rule text_name.entry.now)) }
    ensures local { IfOk result (λ c. (fields_of c).has_globals ≡ false) }
{
    named_command(alloc, name, about, end).arg(text(alloc, text_name, help::TEXT))
}

// Builds a command of this name, without arguments. Its help ends with `end`.
fn named_command<'a>(alloc: Global, name: &'a str, about: &'a str, end: &'a str) -> Command<'a>
    ensures app { app_of result ≡ new_app name.entry.now }
    ensures local { (fields_of result).has_globals ≡ false }
{
    Command::new(alloc, name).about(about).after_help(end)
}

// Builds `--with COMPANION`.
fn with_option<'a>(alloc: Global) -> Arg<'a>
    ensures rule { rule_of result ≡ with_option }
    ensures local { result.global ≡ false }
{
    option(alloc, "with", "COMPANION", help::WITH)
}

// Builds `--form FORM`.
fn form_option<'a>(alloc: Global, forms: &'a [&'a str]) -> Arg<'a>
    ensures rule { rule_of result ≡ form_option forms.entry }
    ensures local { result.global ≡ false }
{
    option(alloc, "form", "FORM", help::FORM)
        .value_parser(forms)
        .default_value("1")
}

// Builds an option of this name, with one value.
fn option<'a>(alloc: Global, name: &'a str, value: &'a str, help: &'a str) -> Arg<'a>
    ensures rule { rule_of result ≡ option_rule name.entry.now }
    ensures local { result.global ≡ false }
{
    Arg::new(alloc, name)
        .long(name)
        .value_name(value)
        .action(ArgAction::Set)
        .help(help)
}

// Builds an argument for a word that names a text.
fn text<'a>(alloc: Global, name: &'a str, help: &'a str) -> Arg<'a>
    ensures rule { rule_of result ≡ text_rule name.entry.now }
    ensures local { result.global ≡ false }
{
    Arg::new(alloc, name)
        .required(true)
        .action(ArgAction::Set)
        .help(help)
}
