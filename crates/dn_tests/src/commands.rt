// Command lines, compared with what `clap` 4 makes of them, and the texts of help, version and refusals.

mod cases;

use cases::{BAD, COMMANDS, HELP, VERSION};
use dn_bundle::{BundleFault, Form};
use dn_command::{Command, Request, request_of};
use dn_instance::{CompanionFault, Refusal};
use dn_line::{Code, SourceFault};
use std::alloc::{AllocError, Global};
use std::fmt::Display;
use std::test::Fail;

const VERSION_TEXT: &str = "dnorm 3.1.0\n";

// Returns the words of a line after the program's name. `|` separates the words of the line.
pub(crate) fn owned(alloc: Global, line: &str) -> Result<Vec<String>, AllocError> {
    let mut all = Vec::new(alloc);
    match push_words(alloc, line, &mut all) {
        Ok(()) => Ok(all),
        Err(error) => {
            drop(all);
            Err(error)
        }
    }
}

// Appends the words of a line to `all`, the program's name first.
fn push_words(alloc: Global, line: &str, all: &mut Vec<String>) -> Result<(), AllocError> {
    all.push(String::from_str(alloc, "dnorm")?)?;
    for word in line.split('|') {
        all.push(String::from_str(alloc, word)?)?;
    }
    Ok(())
}

// Returns a command in the notation of the tables.
fn command_text(alloc: Global, command: &Command<'_>) -> Result<String, AllocError> {
    let (word, first, second) = match *command {
        Command::Show { name } => ("show", name, None),
        Command::Check { name, with } => ("check", name, with),
        Command::Canon {
            name,
            form: Form::One,
        } => ("canon 1", name, None),
        Command::Canon {
            name,
            form: Form::Two,
        } => ("canon 2", name, None),
        Command::Compare { left, right } => ("compare", left, Some(right)),
    };
    match second {
        None => format!(in alloc; "{word} [{first}]"),
        Some(second) => format!(in alloc; "{word} [{first}] [{second}]"),
    }
}

// Returns a request in the notation of the tables.
fn request_text(alloc: Global, request: &Request<'_>) -> Result<String, AllocError> {
    match request {
        Request::Command(command) => command_text(alloc, command),
        Request::Print(text) if text.as_str() == VERSION_TEXT => String::from_str(alloc, "version"),
        Request::Print(_) => String::from_str(alloc, "help"),
        Request::Bad => String::from_str(alloc, "bad"),
        Request::Memory => String::from_str(alloc, "memory"),
    }
}

// Whether the words of a line ask for what the table says.
fn is_read(alloc: Global, line: &str, wanted: &str) -> Result<bool, AllocError> {
    let words = owned(alloc, line)?;
    let request = request_of(alloc, &words);
    let text = request_text(alloc, &request)?;
    Ok(text.as_str() == wanted)
}

// Returns the first of these lines, with `;` between them, that asks for something else.
fn first_other(alloc: Global, lines: &'static str, wanted: &str) -> Option<&'static str> {
    for line in lines.split(';') {
        if is_read(alloc, line, wanted) != Ok(true) {
            return Some(line);
        }
    }
    None
}

#[test]
fn command_lines(rt: HostRuntime) {
    for (line, command) in &COMMANDS {
        assert_eq!(rt; first_other(rt.alloc(), line, command), None);
    }
    for (lines, wanted) in [(BAD, "bad"), (HELP, "help"), (VERSION, "version")] {
        assert_eq!(rt; first_other(rt.alloc(), lines, wanted), None);
    }
}

#[test]
fn the_version(rt: HostRuntime) -> Result<(), Fail> {
    let words = owned(rt.alloc(), "--version")?;
    let Request::Print(text) = request_of(rt.alloc(), &words) else {
        return Err(Fail::from("no text"));
    };
    assert_eq!(rt; text.as_str(), VERSION_TEXT);
    Ok(())
}

const CODES: [Code; 21] = [
    Code::BadLine,
    Code::EarlyLine,
    Code::SecondProblem,
    Code::UnknownProblem,
    Code::WrongLine,
    Code::LateNode,
    Code::TooManyLines,
    Code::FieldCount,
    Code::NotANumber,
    Code::OutOfRange,
    Code::Negative,
    Code::BadTerminal,
    Code::NodeOutOfRange,
    Code::RepeatedNode,
    Code::SameTerminal,
    Code::LowAboveCap,
    Code::SumTooLarge,
    Code::NoProblem,
    Code::MissingTerminal,
    Code::TooFewLines,
    Code::TooLong,
];

const REFUSALS: [Refusal; 5] = [
    Refusal::Memory,
    Refusal::Read,
    Refusal::Endless,
    Refusal::Write,
    Refusal::CountTooLarge,
];

const FAULTS: [CompanionFault; 2] = [
    CompanionFault::NotInGraph { id: 1 },
    CompanionFault::NotKinds,
];

// The sentence of each refusal, after its number.
const SENTENCES: &str = "
1 bad line
2 line before the problem line
3 second problem line
4 unknown problem
5 wrong line for this kind
6 node line after an arc line
7 too many lines
8 wrong number of fields
9 not a number
10 number out of range
11 negative number
12 bad terminal
13 node out of range
14 repeated node
15 source and sink are one node
16 lower bound above capacity
17 sum of capacities too large
18 no problem line
19 missing source or sink
20 too few lines
21 too many lines for a line number
30 out of memory
31 the source of bytes failed
32 the source of bytes has no end
33 the sink of bytes failed
34 too many canonical lines
35 node not in the graph
36 not a graph and a companion
";

// Whether a refusal of this number is displayed as its sentence.
fn is_written<T: Display>(alloc: Global, number: u8, refusal: &T) -> bool {
    match format!(in alloc; "\n{number} {refusal}\n") {
        Ok(line) => SENTENCES.contains(line.as_str()),
        Err(_) => false,
    }
}

#[test]
fn refusals_are_written_as_sentences(rt: HostRuntime) -> Result<(), Fail> {
    for code in &CODES {
        assert!(rt; is_written(rt.alloc(), code.number(), code));
    }
    for refusal in &REFUSALS {
        assert!(rt; is_written(rt.alloc(), refusal.number(), refusal));
    }
    for fault in &FAULTS {
        assert!(rt; is_written(rt.alloc(), fault.number(), fault));
    }
    Ok(())
}

#[test]
fn other_faults_are_written_as_sentences(rt: HostRuntime) {
    let text = format!(in rt.alloc();
        "{}, {}, {}",
        SourceFault,
        BundleFault::Sum,
        BundleFault::Memory
    );
    assert!(rt;
        text.is_ok_and(|text| text.as_str()
            == "the source of bytes failed, the capacities sum past 2^63-1, out of memory")
    );
}
