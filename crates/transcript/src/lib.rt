//! All that is answered to a stream of commands: the line of each step, and then that of each pair.
#![tactic(auto)]

ghost use Rattle.std.specs.Prelude.{◌≡◌, ◌++◌, None, Some};
ghost use Rattle.board.specs.Boards.{position, Stands};
ghost use Rattle.stream.specs.Pairs.{lines_of};
ghost use Rattle.transcript.specs.Texts.{Ends, PushesStep, PlaysAll};
ghost use Rattle.transcript.specs.Transcript.{transcribing, transcript, PlayedOut, KeepsLaw};
ghost use Rattle.transcript.specs.declared.Failure.TheVariants.{Input, Memory};
ghost use Rattle.transcript.specs.Words.{failure_text};
ghost use Rattle.transcript.specs.Worked.{WorkedStream};

use bit_matrix::BitMatrix;
use board::Board;
use links::{Book, MOST_LOADS, Refused};
use ranking::{ByNumber, Ranking};
use replies::{LONGEST_LINE, LONGEST_PAIR};
use std::alloc::{AllocError, Global};
use std::error::Error;
use std::fmt;
use stream::{list_pairs, step};

// The most links of the board.
const LINK_LIMIT: usize = 2_048;

// Each pair has two of the loads.
const LONGEST_LIST: usize = MOST_LOADS / 2 * LONGEST_PAIR;

/// Why there is no transcript.
#[derive(Clone, Copy, PartialEq, Eq, Debug)]
pub enum Failure {
    /// The input is refused.
    Input(Refused),
    /// There is no memory left for the text.
    Memory,
}

impl From<Refused> for Failure {
    ghost from_gives = { λ e r. r ≡ Input e };

    fn from(refused: Refused) -> Failure {
        Failure::Input(refused)
    }
}

impl From<AllocError> for Failure {
    ghost from_gives = { λ _ r. r ≡ Memory };

    fn from(_none: AllocError) -> Failure {
        Failure::Memory
    }
}

impl fmt::Display for Failure {
    ghost output = { λ f. Some (failure_text f) };

    fn fmt<W: fmt::Write>(&self, f: &mut fmt::Formatter<W>) -> fmt::Result {
        match self {
            Failure::Input(refused) => write!(f, "refused with {}", refused.refusal.number()),
            Failure::Memory => write!(f, "no memory is left"),
        }
    }
}

impl Error for Failure {}

// Makes a step, puts its line at the end of the text, and answers the place after it.
fn push_step<B: Book, R: Ranking>(
    board: &mut Board<B, R>,
    stream: &[u8],
    place: usize,
    text: &mut Vec<u8>,
) -> Result<usize, Failure>
    ensures { PushesStep B.Links.graph B.Links.made B.Book.ledger R.Ranking.before
        board.old stream.now place text.old.items result board.new text.new.items }
{
    let mut line = [0; LONGEST_LINE];
    let stepped = step(board, stream, place, &mut line)?;
    text.extend_from_slice(&line[..stepped.written])?;
    Ok(stepped.place)
}

// Steps from the start of the stream until the place stays. A stream has no more commands than
// bytes.
fn play_all<B: Book, R: Ranking>(
    board: &mut Board<B, R>,
    stream: &[u8],
    text: &mut Vec<u8>,
) -> Result<(), Failure>
    ensures { PlaysAll B.Links.graph B.Links.made B.Book.ledger R.Ranking.before
        board.old stream.now text.old.items result board.new text.new.items }
{
    let mut place = 0;
    for _ in 0..stream.len() {
        let next = push_step(board, stream, place, text)?;
        if next == place {
            return Ok(());
        }
        place = next;
    }
    Ok(())
}

// Puts the lines of the pairs at the end of the text.
fn push_pairs<B: Book, R: Ranking>(board: &Board<B, R>, text: &mut Vec<u8>) -> Result<(), Failure>
    ensures { Stands B.Links.graph B.Links.made B.Book.ledger board.now →
        Ends None result (λ _.
        text.new.items
        ≡ text.old.items ++ lines_of (position B.Links.graph B.Book.ledger board.now)) }
{
    let mut lines = [0; LONGEST_LIST];
    let written = list_pairs(board, &mut lines)?;
    text.extend_from_slice(&lines[..written])?;
    Ok(())
}

/// Every byte that is answered to an input: it is played on a fresh board of 256 loads, with at
/// most 2,048 links and the lower number first. The text has the line of each command, up to the
/// end or to the first place where the bytes are no command, and then the line of each pair.
///
/// Fails with `Input` of 3 (stream) where the input has more than 65,536 bytes, and with `Memory`
/// where the text cannot grow. No other reason fails it: what the board refuses is told in the
/// text.
///
/// Costs a call of the board for each command and a line for each pair; the board and its book have
/// their memory in the stack of the call.
#[tactic(auto, using(crate::proofs::Playing::played_out))]
pub fn transcript(heap: Global, input: &[u8]) -> Result<Vec<u8>, Failure>
    ensures ends { Ends (transcribing input.now) result (λ v. v.items ≡ transcript input.now) }
    ensures whole { PlayedOut }
    ensures law { KeepsLaw input.now }
{
    let mut words = [0; 1024];
    let book = BitMatrix::new(MOST_LOADS, LINK_LIMIT, &mut words);
    let mut board = Board::open(book, ByNumber);
    let mut text = Vec::new(heap);
    play_all(&mut board, input, &mut text)?;
    push_pairs(&board, &mut text)?;
    Ok(text)
}

/// A stream played through, line by line.
pub fn worked_stream()
    ensures { WorkedStream }
{}
