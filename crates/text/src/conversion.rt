//! Whole texts: to a stream of commands, and back.
ghost use Rattle.std.specs.Prelude.{◌≡◌, ◌++◌, string_bytes, OnOk, Some};
ghost use Rattle.commands.specs.Commands.{bytes, line_of};
ghost use Rattle.text.specs.Lines.{Means};
ghost use Rattle.text.specs.Conversion.{Appends, Encodes, full_line, Decodes, bad_text_told};
ghost use Rattle.text.specs.Conversion.{bad_stream_told};
ghost use Rattle.text.specs.declared.conversion.BadText.TheVariants as bad_text;
ghost use Rattle.text.specs.declared.conversion.BadStream.TheVariants as bad_stream;

use crate::parse_line;
use crate::shown::Quoted;
use crate::words::without_return;
use commands::{Command, LONGEST_STREAM, read};
use links::Refused;
use std::alloc::{AllocError, Global};
use std::error::Error;
use std::fmt;

// What a line may say, for people to read.
const FORMS: &str = "link A B, unlink A B, withdraw A, depart A, partner A";

/// Why a text gives no stream.
#[derive(Clone, Copy, PartialEq, Eq, Debug)]
pub enum BadText<'a> {
    /// The number of the first line that is bad, counted from 1, and its text without the line
    /// feed.
    Line(usize, &'a [u8]),
    /// The commands come to more bytes than a stream may have.
    TooLong,
    /// There is no memory for the stream.
    NoMemory,
}

impl From<AllocError> for BadText<'_> {
    ghost from_gives = { λ _ r. r ≡ bad_text.NoMemory };

    fn from(_none: AllocError) -> Self {
        BadText::NoMemory
    }
}

impl fmt::Display for BadText<'_> {
    ghost output = { λ e. Some (bad_text_told e) };

    fn fmt<W: fmt::Write>(&self, f: &mut fmt::Formatter<W>) -> fmt::Result {
        match self {
            Self::Line(number, line) => {
                let line = Quoted(without_return(line));
                write!(f, "line {number}: {line} is no command ({FORMS})")
            }
            Self::TooLong => f.write_str("the commands come to more than 65536 bytes"),
            Self::NoMemory => f.write_str("no memory is left"),
        }
    }
}

impl Error for BadText<'_> {}

/// Why a stream gives no text.
#[derive(Clone, Copy, PartialEq, Eq, Debug)]
pub enum BadStream {
    /// Why, and the place of the command byte; 0 where the stream is too long.
    At(Refused, usize),
    /// There is no memory for the text.
    NoMemory,
}

impl From<AllocError> for BadStream {
    ghost from_gives = { λ _ r. r ≡ bad_stream.NoMemory };

    fn from(_none: AllocError) -> BadStream {
        BadStream::NoMemory
    }
}

impl fmt::Display for BadStream {
    ghost output = { λ e. Some (bad_stream_told e) };

    fn fmt<W: fmt::Write>(&self, f: &mut fmt::Formatter<W>) -> fmt::Result {
        match self {
            Self::At(refused, place) => match refused.refusal.number() {
                3 => f.write_str("the stream has more than 65536 bytes (refusal 3)"),
                number => write!(f, "byte {place}: {} (refusal {number})", refused.refusal),
            },
            Self::NoMemory => f.write_str("no memory is left"),
        }
    }
}

impl Error for BadStream {}

fn push(stream: &mut Vec<u8>, command: Command) -> Result<(), AllocError>
    ensures { OnOk result (stream.new.items ≡ stream.old.items ++ bytes command) }
{
    let mut room = [0; 5];
    let n = command.write(&mut room).unwrap();
    stream.extend_from_slice(&room[..n])
}

// Appends the bytes of the command of a line, if it has one. The number is that of the line.
fn push_line<'a>(stream: &mut Vec<u8>, line: &'a [u8], number: usize) -> Result<(), BadText<'a>>
    ensures { Appends line.now number stream.old.items result stream.new.items }
{
    if let Some(command) = parse_line(line).map_err(|_| BadText::Line(number, line))? {
        push(stream, command)?;
    }
    Ok(())
}

/// The stream of the commands of a text, in memory from `heap`.
///
/// The text is taken line by line, and refused at the first line that is bad, or with which the
/// commands come to more than 65,536 bytes. The time grows with the length of the text.
pub fn encode<'a>(heap: Global, text: &'a [u8]) -> Result<Vec<u8>, BadText<'a>>
    ensures { Encodes text.now result }
{
    let mut stream = Vec::new(heap);
    for (i, line) in text.split(|byte| *byte == b'\n').enumerate() {
        push_line(&mut stream, line, i + 1)?;
        if stream.len() > LONGEST_STREAM {
            return Err(BadText::TooLong);
        }
    }
    Ok(stream)
}

// Appends the line of a command and a line feed.
fn push_full_line(text: &mut String, command: Command) -> Result<(), AllocError>
    ensures line { OnOk result
        (string_bytes text.new ≡ string_bytes text.old ++ full_line command) }
    ensures reads_back { Means (line_of command) command }
{
    writeln!(text, "{command}")
}

/// The text of the commands of a stream, a line for each, in memory from `heap`.
///
/// A stream of more than 65,536 bytes is refused with 3 at place 0. Any other is refused with 12 or
/// 13 at the first place where no command begins. The time grows with the length of the stream.
pub fn decode(heap: Global, stream: &[u8]) -> Result<String, BadStream>
    ensures { Decodes stream.now result }
{
    let mut text = String::new(heap);
    let mut place = 0;
    while let Some(decoded) = read(stream, place).map_err(|e| BadStream::At(e, place))? {
        push_full_line(&mut text, decoded.command)?;
        place = decoded.next;
    }
    Ok(text)
}
