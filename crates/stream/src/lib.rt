//! A stream of commands played on a board, a step at a time, and the list of its pairs.
#![tactic(auto)]

ghost use Rattle.std.specs.Prelude.{◌≡◌, ◌≤◌, ◌<◌, length, IfSome, if◌then◌else◌};
ghost use Rattle.graph.specs.Pairs.{below_partner};
ghost use Rattle.outputs.specs.Outputs.{Writes};
ghost use Rattle.links.specs.Refusals.{Answers};
ghost use Rattle.board.specs.Boards.{position, Stands};
ghost use Rattle.stream.specs.Pairs.{lower_line, Lists};
ghost use Rattle.stream.specs.Replies.{partner_reply, on_granted, CarriesOut};
ghost use Rattle.stream.specs.Steps.{stepping, Steps};

use board::Board;
use commands::{Command, check_length, read};
use links::{Book, Layer, Links, MOST_LOADS, Refusal, Refused};
use outputs::write_start;
use ranking::Ranking;
use replies::{LONGEST_LINE, LONGEST_PAIR, Reply, write_pair};

// There is at most a line for each of 256 loads.
const LONGEST_LIST: usize = MOST_LOADS * LONGEST_PAIR;

/// What a step came to.
#[derive(Clone, Copy, PartialEq, Eq, Debug)]
pub struct Stepped {
    /// The place after the command; where no command stands at the place given, that place.
    pub place: usize,
    /// How many bytes the line has, line feed included: 0 where the stream has ended before, else 3
    /// to 19.
    pub written: usize,
}

// The reply to a change that was made or refused.
fn done(answer: Result<(), Refused>) -> Result<Reply, Refused>
    ensures { result ≡ on_granted (λ _. Reply.Done) answer }
{
    answer.map(|()| Reply::Done)
}

// The reply to a question for a partner. A partner is one of 256 loads.
fn partner_reply(partner: Option<usize>) -> Reply
    requires { IfSome partner (λ b. b < MOST_LOADS) }
    ensures { result ≡ partner_reply partner }
{
    match partner {
        Some(b) => Reply::With(b as u16),
        None => Reply::Alone,
    }
}

// Makes the call that a command asks for, and answers the reply to it.
fn play<B: Book, R: Ranking>(board: &mut Board<B, R>, command: Command) -> Result<Reply, Refused>
    ensures { CarriesOut B.Links.graph B.Links.made B.Book.ledger B.Book.fixed R.Ranking.before
        board.old command result board.new }
{
    match command {
        Command::Link(a, b) => done(board.link(usize::from(a), usize::from(b))),
        Command::Unlink(a, b) => done(board.unlink(usize::from(a), usize::from(b))),
        Command::Withdraw(a) => done(board.withdraw(usize::from(a))),
        Command::Depart(a) => done(board.depart(usize::from(a))),
        Command::Partner(a) => Ok(partner_reply(board.partner(usize::from(a))?)),
    }
}

// Refuses a step with 3 or 14, as `step` says.
fn check_step(stream: &[u8], out: &[u8]) -> Result<(), Refused>
    ensures { Answers (stepping stream.now out.now) result (λ _. Unit {0}) }
{
    check_length(stream)?;
    if out.len() < LONGEST_LINE {
        return Err(Refusal::OutputTooShort.by(Layer::Stream));
    }
    Ok(())
}

/// Plays the command at a place of the stream by the board's own call, and writes the line that
/// answers it at the start of `out`. What lies past the line stays as it was. At or past the end
/// nothing is changed or written. `place` may be any number.
///
/// Refused with 3 (stream) where the stream has more than 65,536 bytes, then with 14 (stream) where
/// `out` has fewer than 19, whatever the line would be. Board and output stay as they were then. No
/// other reason refuses a step: where the board refuses the command, or the bytes are no command
/// (12 and 13), the step is made, and its line tells the reason. The board stays as it was, and
/// after 12 and 13 the place stays too.
///
/// Looks at no more than five bytes of the stream. The rest of the cost is that of the board's
/// call.
pub fn step<B: Book, R: Ranking>(
    board: &mut Board<B, R>,
    stream: &[u8],
    place: usize,
    out: &mut [u8],
) -> Result<Stepped, Refused>
    ensures { Steps B.Links.graph B.Links.made B.Book.ledger B.Book.fixed R.Ranking.before
        board.old stream.now place out.old result board.new out.new }
{
    check_step(stream, out)?;
    let (next, answer) = match read(stream, place) {
        Ok(None) => return Ok(Stepped { place, written: 0 }),
        Ok(Some(decoded)) => (decoded.next, play(board, decoded.command)),
        Err(refused) => (place, Err(refused)),
    };
    // a command begins within the stream, and so its place fits in 16 bits
    let reply = answer.unwrap_or_else(|refused| Reply::No(refused, place as u16));
    let written = reply.write(out)?;
    Ok(Stepped {
        place: next,
        written,
    })
}

// Writes the line of a load and its partner where that is the higher one, and answers its length.
fn write_lower(a: usize, partner: Option<usize>, out: &mut [u8]) -> Result<usize, Refused>
    requires load { a < MOST_LOADS }
    requires partner { IfSome partner (λ b. b < MOST_LOADS) }
    ensures writes { Writes (lower_line a partner) out.old result out.new }
    ensures short { length (lower_line a partner)
        ≤ (if below_partner a partner then LONGEST_PAIR else 0) }
{
    match partner {
        Some(b) if a < b => write_pair(a as u8, b as u8, out),
        _ => Ok(0),
    }
}

/// Writes a line for each pair at the start of `out`, the lower load first, in the order of the
/// lower loads, and answers how many bytes they have: on an opened board at most 1,024. What lies
/// past them stays as it was.
///
/// Refused with 14 (stream) where `out` has fewer than 8 bytes for each pair, and nothing is
/// written then. On a board that did not come from opening, lines that do not fit are refused in
/// the same way.
///
/// Looks at the record of each load, twice.
pub fn list_pairs<B: Book, R: Ranking>(
    board: &Board<B, R>,
    out: &mut [u8],
) -> Result<usize, Refused>
    ensures { Lists (Stands B.Links.graph B.Links.made B.Book.ledger board.now)
        (position B.Links.graph B.Book.ledger board.now) out.old result out.new }
{
    if out.len() / LONGEST_PAIR < board.pair_count() {
        return Err(Refusal::OutputTooShort.by(Layer::Stream));
    }
    let mut lines = [0; LONGEST_LIST];
    let mut written = 0;
    for a in 0..board.book().size().min(MOST_LOADS) {
        let partner = board.partner(a).unwrap_or(None);
        written += write_lower(a, partner, &mut lines[written..])?;
    }
    write_start(&lines[..written], out)
}
