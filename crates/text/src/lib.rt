//! Commands as lines of text: a word for the kind of command, then its loads in decimal.
#![tactic(auto)]

ghost use Rattle.std.specs.Prelude.{◌≡◌, IfOk, string_bytes};
ghost use Rattle.commands.specs.Commands.{line_of};
ghost use Rattle.text.specs.Lines.{command_of_one, command_of_two, command_of, meaning, Means};
ghost use Rattle.text.specs.Worked.{WorkedLines};

use commands::Command;
use std::alloc::{AllocError, Global};
use words::{no_more, number, split_word, without_return};

pub mod conversion;
mod shown;
mod words;

/// A line that is neither a command nor a comment.
#[derive(Clone, Copy, PartialEq, Eq, Debug)]
pub struct BadLine;

fn one_load(kind: &[u8], a: u16) -> Option<Command>
    ensures { result ≡ command_of_one kind.now a }
{
    match kind {
        b"withdraw" => Some(Command::Withdraw(a)),
        b"depart" => Some(Command::Depart(a)),
        b"partner" => Some(Command::Partner(a)),
        _ => None,
    }
}

fn two_loads(kind: &[u8], a: u16, b: u16) -> Option<Command>
    ensures { result ≡ command_of_two kind.now a b }
{
    match kind {
        b"link" => Some(Command::Link(a, b)),
        b"unlink" => Some(Command::Unlink(a, b)),
        _ => None,
    }
}

// The command of a kind with the loads that the rest of its line has. A comment may follow.
fn parse_command(kind: &[u8], rest: &[u8]) -> Option<Command>
    ensures { result ≡ command_of kind.now rest.now }
{
    let (first, rest) = split_word(rest);
    let a = number(first)?;
    let (second, rest) = split_word(rest);
    if no_more(second) {
        return one_load(kind, a);
    }
    let b = number(second)?;
    let (third, _) = split_word(rest);
    if !no_more(third) {
        return None;
    }
    two_loads(kind, a, b)
}

/// The command of a line without its line feed; `None` where it has no word or only a comment.
///
/// Words are separated by spaces and tabs. A comment begins at a word whose first byte is `#`, and
/// goes on to the end of the line. The time grows with the length of the line.
pub fn parse_line(line: &[u8]) -> Result<Option<Command>, BadLine>
    ensures { result ≡ meaning line.now }
{
    let (kind, rest) = split_word(without_return(line));
    if no_more(kind) {
        return Ok(None);
    }
    parse_command(kind, rest).map(Some).ok_or(BadLine)
}

/// The line of a command, without a line feed.
pub fn format_line(heap: Global, command: Command) -> Result<String, AllocError>
    ensures value { IfOk result (λ text. string_bytes text ≡ line_of command) }
    ensures reads_back { Means (line_of command) command }
{
    format!(in heap; "{command}")
}

/// Lines written out: spaces, tabs, comments and what is no command.
pub fn worked_lines()
    ensures { WorkedLines }
{}
