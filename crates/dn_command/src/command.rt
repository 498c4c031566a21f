// Commands, and the plain forms of commands, which are recognised without `clap`.
ghost use Rattle.std.specs.Prelude.{◌≡◌, map, string_bytes, option_map};
ghost use Rattle.dn_command.specs.Commands.{asked_of_one, asked_of_two, asks, is_name, is_standard_input, names_twice};
ghost use Rattle.dn_command.specs.Commands.{plain_asked};

use dn_arc_theory::Form;

/// A command. A text is given by the name of its file, or by `-` for standard input.
#[derive(Clone, Copy)]
pub enum Command<'a> {
    /// `show FILE`: shows what a text contains.
    Show {
        /// The name of the text.
        name: &'a str,
    },
    /// `check FILE [--with COMPANION]`: checks whether a text is accepted, and whether a companion fits it.
    Check {
        /// The name of the text.
        name: &'a str,
        /// The name of the companion, if one is given.
        with: Option<&'a str>,
    },
    /// `canon [--form 1|2] FILE`: writes the canonical text of a text.
    Canon {
        /// The name of the text.
        name: &'a str,
        /// The form of the canonical text.
        form: Form,
    },
    /// `compare LEFT RIGHT`: finds the first difference between two texts.
    Compare {
        /// The name of the left text.
        left: &'a str,
        /// The name of the right text.
        right: &'a str,
    },
}

impl Command<'_> {
    /// Whether both texts of the command are standard input, which can be read only once.
    pub fn names_standard_input_twice(&self) -> bool
        ensures { result ≡ names_twice (asks self.now) }
    {
        match self {
            Command::Check {
                name,
                with: Some(with),
            } => is_standard_input(name) && is_standard_input(with),
            Command::Compare { left, right } => is_standard_input(left) && is_standard_input(right),
            _ => false,
        }
    }
}

// Returns the command of a line of words, the program's name first, if the line is a plain form, and `None` otherwise.
// The plain forms are `show FILE`, `check FILE`, `canon FILE` and `compare LEFT RIGHT`, where a text is `-` or any
// non-empty word that does not begin with `-`. No word after the program's name is a plain form too, and means `canon
// -`. The form of canonical texts is form 1.
pub(crate) fn plain_command(words: &[String]) -> Option<Command<'_>>
    ensures { option_map asks result ≡ plain_asked (map string_bytes words.now) }
{
    match words {
        [] | [_] => Some(Command::Canon {
            name: "-",
            form: Form::One,
        }),
        [_, _] => None,
        [_, word, name] => plain_command_of_one(word.as_str(), name.as_str()),
        [_, word, left, right] => plain_compare(word.as_str(), left.as_str(), right.as_str()),
        [_, _, _, _, _, ..] => None,
    }
}

// Returns the plain command of this word and one text.
fn plain_command_of_one<'a>(word: &str, name: &'a str) -> Option<Command<'a>>
    ensures { option_map asks result ≡ asked_of_one word.now name.now }
{
    if !is_name(name) {
        return None;
    }
    match word {
        "show" => Some(Command::Show { name }),
        "check" => Some(Command::Check { name, with: None }),
        "canon" => Some(Command::Canon {
            name,
            form: Form::One,
        }),
        _ => None,
    }
}

// Returns the plain command of this word and two texts.
fn plain_compare<'a>(word: &str, left: &'a str, right: &'a str) -> Option<Command<'a>>
    ensures { option_map asks result ≡ asked_of_two word.now left.now right.now }
{
    if word == "compare" && is_name(left) && is_name(right) {
        Some(Command::Compare { left, right })
    } else {
        None
    }
}

// Whether a word names a text.
fn is_name(word: &str) -> bool
    ensures { result ≡ is_name word.now }
{
    match word.as_bytes() {
        [] => false,
        [first, ..] => is_standard_input(word) || *first != b'-',
    }
}

// Whether a word names standard input.
fn is_standard_input(word: &str) -> bool
    ensures { result ≡ is_standard_input word.now }
{
    word == "-"
}
