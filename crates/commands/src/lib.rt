//! The commands of a stream, as bytes: one for the kind of command, then two for each of its loads,
//! the high byte first; and as lines of text.
#![tactic(auto)]

ghost use Rattle.std.specs.Prelude.{◌≡◌, ◌+◌, ◌*◌, ◌≤◌, length, take, None, Some};
ghost use Rattle.outputs.specs.Outputs.{Writes};
ghost use Rattle.links.specs.Refusals.{Answers};
ghost use Rattle.commands.specs.Commands.{bytes, line_of, decoding, decoded, unless_short, Reads};
ghost use Rattle.commands.specs.Commands.{Spanned, ReadsBack};

use links::{Layer, Refusal, Refused};
use outputs::write_start;
use std::fmt;

/// A stream has at most this many bytes, so that the place of each command fits in 16 bits.
pub const LONGEST_STREAM: usize = 65_536;

/// A command of the stream. Its loads may be any numbers of 16 bits; whether they are loads of a
/// board is for the board to say.
#[derive(Clone, Copy, PartialEq, Eq, Debug)]
pub enum Command {
    /// 1: link two loads.
    Link(u16, u16),
    /// 2: unlink two loads.
    Unlink(u16, u16),
    /// 3: withdraw a load.
    Withdraw(u16),
    /// 4: a load departs with its partner.
    Depart(u16),
    /// 5: ask for the partner of a load.
    Partner(u16),
}

/// A command that was read, and the place after it.
#[derive(Clone, Copy, PartialEq, Eq, Debug)]
pub struct Decoded {
    /// What the bytes say.
    pub command: Command,
    /// The place of the byte after them, 3 or 5 bytes on.
    pub next: usize,
}

impl Command {
    // How many bytes the command has.
    fn size(self) -> usize
        ensures value { result ≡ length (bytes self) }
        ensures bound { result ≤ 5 }
    {
        match self {
            Command::Link(..) | Command::Unlink(..) => 5,
            Command::Withdraw(_) | Command::Depart(_) | Command::Partner(_) => 3,
        }
    }

    // The bytes of the command; where it has one load, the last two count for nothing.
    fn encode(self) -> [u8; 5]
        ensures { take (length (bytes self)) result ≡ bytes self }
    {
        let (code, a, b) = match self {
            Command::Link(a, b) => (1, a, b),
            Command::Unlink(a, b) => (2, a, b),
            Command::Withdraw(a) => (3, a, 0),
            Command::Depart(a) => (4, a, 0),
            Command::Partner(a) => (5, a, 0),
        };
        let [high_a, low_a] = a.to_be_bytes();
        let [high_b, low_b] = b.to_be_bytes();
        [code, high_a, low_a, high_b, low_b]
    }

    /// Writes the command at the start of an output, and answers how many bytes it has: 5 where it
    /// has two loads, 3 where it has one. What is written reads back as the command.
    ///
    /// Refused with 14 (stream) where the output is shorter than that, and nothing is written then.
    /// What lies past the command stays as it was.
    #[tactic(auto, using(crate::proofs::Reading::reads_back))]
    pub fn write(self, out: &mut [u8]) -> Result<usize, Refused>
        ensures value { Writes (bytes self) out.old result out.new }
        ensures reads_back { ReadsBack self out.new result }
    {
        write_start(&self.encode()[..self.size()], out)
    }
}

// The line of a command, without a line feed: a word for its kind, then its loads in decimal.
impl fmt::Display for Command {
    ghost output = { λ c. Some (line_of c) };

    fn fmt<W: fmt::Write>(&self, f: &mut fmt::Formatter<W>) -> fmt::Result {
        match self {
            Command::Link(a, b) => write!(f, "link {a} {b}"),
            Command::Unlink(a, b) => write!(f, "unlink {a} {b}"),
            Command::Withdraw(a) => write!(f, "withdraw {a}"),
            Command::Depart(a) => write!(f, "depart {a}"),
            Command::Partner(a) => write!(f, "partner {a}"),
        }
    }
}

// The load in two bytes.
fn load(high: u8, low: u8) -> u16
    ensures { result ≡ high * 256 + low }
{
    u16::from_be_bytes([high, low])
}

// The command that bytes begin with.
fn decode(rest: &[u8]) -> Result<Command, Refused>
    ensures { Answers (decoding rest.now) result
        (λ c. (c ≡ decoded rest.now) × (take (length (bytes c)) rest.now ≡ bytes c)) }
{
    match rest {
        [1, a, b, c, d, ..] => Ok(Command::Link(load(*a, *b), load(*c, *d))),
        [2, a, b, c, d, ..] => Ok(Command::Unlink(load(*a, *b), load(*c, *d))),
        [3, a, b, ..] => Ok(Command::Withdraw(load(*a, *b))),
        [4, a, b, ..] => Ok(Command::Depart(load(*a, *b))),
        [5, a, b, ..] => Ok(Command::Partner(load(*a, *b))),
        [1..=5, ..] => Err(Refusal::CutShort.by(Layer::Stream)),
        _ => Err(Refusal::UnknownCommand.by(Layer::Stream)),
    }
}

/// Whether a stream is short enough to be read: refused with 3 (stream) where it has more than
/// 65,536 bytes. Looks at its length alone.
pub fn check_length(stream: &[u8]) -> Result<(), Refused>
    ensures checks { Answers (unless_short stream.now None) result (λ _. Unit {0}) }
    ensures longest { LONGEST_STREAM ≡ 65536 }
{
    if stream.len() > LONGEST_STREAM {
        return Err(Refusal::WrongLength.by(Layer::Stream));
    }
    Ok(())
}

/// The command at a place of a stream, with the place after it; none at or past its end.
///
/// The first of these that holds refuses the call: the stream has more than 65,536 bytes
/// (3, stream), the byte at the place begins no command (12, stream), the stream ends inside the
/// command (13, stream). Looks at no more than five bytes. `place` may be any number.
pub fn read(stream: &[u8], place: usize) -> Result<Option<Decoded>, Refused>
    ensures value { Reads stream.now place result }
    ensures spanned { Spanned stream.now place result }
{
    check_length(stream)?;
    if place >= stream.len() {
        return Ok(None);
    }
    let command = decode(&stream[place..])?;
    Ok(Some(Decoded {
        command,
        next: place + command.size(),
    }))
}
