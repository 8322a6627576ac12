//! The lines of text that are answered, byte by byte.
#![tactic(auto)]

ghost use Rattle.std.specs.Prelude.{◌≡◌, ◌≤◌, length};
ghost use Rattle.outputs.specs.Outputs.{Writes};
ghost use Rattle.replies.specs.declared.Reply.TheVariants.{With, No};
ghost use Rattle.replies.specs.Digits.{DigitsDecimal, TwoDigitsDecimal};
ghost use Rattle.replies.specs.Lines.{line, pair_line};
ghost use Rattle.replies.specs.Worked.{WorkedLines};

use arrayvec::ArrayString;
use itoa::Buffer;
use links::Refused;
use outputs::write_start;

/// No reply has a longer line, its line feed included: the longest is that of a refusal with a
/// place of five digits, found by the stream.
pub const LONGEST_LINE: usize = 19;

/// No pair has a longer line, its line feed included: the longest has two loads of three digits.
pub const LONGEST_PAIR: usize = 8;

/// What a step answers to a command.
#[derive(Clone, Copy, PartialEq, Eq, Debug)]
pub enum Reply {
    /// The change was made.
    Done,
    /// The load that was asked for has no partner.
    Alone,
    /// The load that was asked for has this partner.
    With(u16),
    /// The command was refused: why, and the place of its first byte in the stream.
    No(Refused, u16),
}

impl Reply {
    /// Writes the line of the reply at the start of `out`, and answers its length, line feed
    /// included. What lies past the line stays as it was.
    ///
    /// Refused with 14 (stream) where `out` is shorter than the line, and nothing is written then.
    /// 19 bytes are enough for every reply.
    pub fn write(self, out: &mut [u8]) -> Result<usize, Refused>
        ensures writes { Writes (line self) out.old result out.new }
        ensures short { length (line self) ≤ LONGEST_LINE }
    {
        match self {
            Reply::Done => write_start(b"ok\n", out),
            Reply::Alone => write_start(b"alone\n", out),
            Reply::With(partner) => write_start(with_line(partner).as_bytes(), out),
            Reply::No(refused, place) => write_start(no_line(refused, place).as_bytes(), out),
        }
    }
}

// A line with a number is made whole before it is written, so that nothing is where it does not
// fit. Not a Display: formatting may fail, and a reply never does.
fn with_line(partner: u16) -> ArrayString<LONGEST_LINE>
    ensures bytes { result.bytes ≡ line (With partner) }
    ensures short { length (line (With partner)) ≤ LONGEST_LINE }
{
    let mut line = ArrayString::new();
    line.push_str("with ");
    line.push_str(Buffer::new().format(partner));
    line.push_str("\n");
    line
}

fn no_line(refused: Refused, place: u16) -> ArrayString<LONGEST_LINE>
    ensures bytes { result.bytes ≡ line (No refused place) }
    ensures short { length (line (No refused place)) ≤ LONGEST_LINE }
{
    let number = refused.refusal.number();
    let mut line = ArrayString::new();
    line.push_str("no ");
    line.push(char::from(b'0' + number / 10));
    line.push(char::from(b'0' + number % 10));
    line.push_str(" ");
    line.push_str(refused.layer.name());
    line.push_str(" ");
    line.push_str(Buffer::new().format(place));
    line.push_str("\n");
    line
}

/// Writes the line of two partners at the start of `out`, in the order given, and answers its
/// length, line feed included. What lies past the line stays as it was.
///
/// Refused with 14 (stream) where `out` is shorter than the line, and nothing is written then.
/// 8 bytes are enough for every two.
pub fn write_pair(a: u8, b: u8, out: &mut [u8]) -> Result<usize, Refused>
    ensures writes { Writes (pair_line a b) out.old result out.new }
    ensures short { length (pair_line a b) ≤ LONGEST_PAIR }
{
    let mut line = ArrayString::<LONGEST_PAIR>::new();
    line.push_str(Buffer::new().format(a));
    line.push_str(" ");
    line.push_str(Buffer::new().format(b));
    line.push_str("\n");
    write_start(line.as_bytes(), out)
}

/// The decimal digits of a number read as that number and have no leading zeros; its two digits
/// read as it too.
pub fn digits_are_decimal()
    ensures all { DigitsDecimal }
    ensures two { TwoDigitsDecimal }
{}

/// Lines written out: each case of a reply, the longest line, and a pair.
pub fn worked_lines()
    ensures { WorkedLines }
{}
