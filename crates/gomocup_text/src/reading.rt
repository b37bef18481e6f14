//! How a line is read as a command.
//!
//! The rows of the table of commands are asked in its order: nothing, then three numbers, then the words. A command that
//! takes nothing has to stand alone; one that takes numbers has to be followed by them and nothing else.
ghost use Rattle.std.specs.Prelude.{◌≡◌};
ghost use Rattle.gomocup_text.specs.Commands.{command_of, text_command, form_of, numbers_or, alone_or, info_of};

use crate::Command;
use crate::numbers::{number, three_numbers, two_numbers};
use crate::words::{Word, first_word, is_word, named_word, trim, without_return};
use renju_io::MAX_LINE_BYTES;

/// The command of a line without its line feed. One carriage return at its end and the spaces and tabs at both ends are
/// dropped; words are read letter by letter in either case; numbers have one to nine digits. A line of more than
/// `MAX_LINE_BYTES` bytes is `Malformed`. It takes no memory.
pub fn read_command(line: &[u8]) -> Command
    ensures command { result ≡ command_of line.now }
{
    if line.len() > MAX_LINE_BYTES {
        return Command::Malformed;
    }
    read_text(trim(without_return(line)))
}

// The command of a line's text, which has no gaps at its ends.
fn read_text(text: &[u8]) -> Command
    ensures command { result ≡ text_command text.now }
{
    if text.is_empty() {
        return Command::Blank;
    }
    if let Some((x, y, field)) = three_numbers(text) {
        return Command::Stone(x, y, field);
    }
    let (word, rest) = first_word(text);
    match named_word(word) {
        Some(word) => read_form(word, rest),
        None => Command::Unknown,
    }
}

// The command of a word and what follows it.
fn read_form(word: Word, rest: &[u8]) -> Command
    ensures command { result ≡ form_of word rest.now }
{
    match word {
        Word::Start => match number(rest) {
            Some(size) => Command::Start(size),
            None => Command::Malformed,
        },
        Word::RectStart => match two_numbers(rest) {
            Some((width, height)) => Command::RectStart(width, height),
            None => Command::Malformed,
        },
        Word::Turn => match two_numbers(rest) {
            Some((x, y)) => Command::Turn(x, y),
            None => Command::Malformed,
        },
        Word::Takeback => match two_numbers(rest) {
            Some((x, y)) => Command::Takeback(x, y),
            None => Command::Malformed,
        },
        Word::Begin => alone(rest, Command::Begin),
        Word::Board => alone(rest, Command::Board),
        Word::Done => alone(rest, Command::Done),
        Word::Restart => alone(rest, Command::Restart),
        Word::About => alone(rest, Command::About),
        Word::End => alone(rest, Command::End),
        Word::Info => read_info(rest),
    }
}

// The command of a word that has to stand alone.
fn alone(rest: &[u8], command: Command) -> Command
    ensures command { result ≡ alone_or rest.now command }
{
    if rest.is_empty() {
        command
    } else {
        Command::Malformed
    }
}

// The command of what follows INFO.
fn read_info(rest: &[u8]) -> Command
    ensures command { result ≡ info_of rest.now }
{
    let (key, value) = first_word(rest);
    if is_word(key, b"rule") {
        if let Some(rule) = number(value) {
            return Command::Rule(rule);
        }
    }
    Command::Info
}
