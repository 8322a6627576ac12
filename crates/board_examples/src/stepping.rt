//! Steps of a stream on any board, and what a caller then knows of the board.
ghost use Rattle.board_examples.specs.Stepping.{CarriesOut, CarriesOutTwo};

use board::Board;
use links::{Book, Links, Refused};
use ranking::Ranking;
use replies::LONGEST_LINE;
use stream::step;

// Plays the command at a place of a stream, and answers the place after it and whether it was
// granted. The line of a refusal begins with "n", and no other line does.
fn carry_out<B: Book, R: Ranking>(
    board: &mut Board<B, R>,
    stream: &[u8],
    place: usize,
) -> Result<(usize, bool), Refused>
    ensures { CarriesOut B.Links.graph B.Links.made B.Book.ledger B.Book.fixed R.Ranking.before
        board.old stream.now place result board.new }
{
    let mut out = [0; LONGEST_LINE];
    let stepped = step(board, stream, place, &mut out)?;
    Ok((stepped.place, stepped.written > 0 && out[0] != b'n'))
}

/// Plays the command at a place of a stream and the one after it, and answers how many of the two
/// were granted. Refused with 3 (stream) where the stream has more than 65,536 bytes.
pub fn carry_out_two<B: Book, R: Ranking>(
    board: &mut Board<B, R>,
    stream: &[u8],
    place: usize,
) -> Result<usize, Refused>
    ensures { CarriesOutTwo B.Links.graph B.Links.made B.Book.ledger B.Book.fixed R.Ranking.before
        board.old stream.now place result board.new }
{
    let (next, first) = carry_out(board, stream, place)?;
    let (_, second) = carry_out(board, stream, next)?;
    Ok(usize::from(first) + usize::from(second))
}
