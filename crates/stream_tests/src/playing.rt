// Plays streams, and compares the lines that are answered.
use board::Board;
use links::Book;
use ranking::{ByNumber, Ranking};
use std::process::Abort;
use std::test::Fail;
use stream::{list_pairs, step};

// Makes the step at a place, which must answer this line, and answers the place after it.
pub fn play_one<B: Book, R: Ranking>(
    rt: &impl Abort,
    board: &mut Board<B, R>,
    stream: &[u8],
    place: usize,
    line: &str,
) -> Result<usize, Fail> {
    let mut out = [0u8; 19];
    let stepped = step(board, stream, place, &mut out)?;
    assert!(rt; stepped.written <= 19);
    assert_eq!(rt; &out[..stepped.written], line.as_bytes());
    Ok(stepped.place)
}

// The pairs of a board, of which there are at most two, are these.
pub fn check_pairs<B: Book, R: Ranking>(
    rt: &impl Abort,
    board: &Board<B, R>,
    pairs: &str,
) -> Result<(), Fail> {
    let mut out = [0u8; 16];
    let written = list_pairs(board, &mut out)?;
    assert!(rt; written <= 16);
    assert_eq!(rt; &out[..written], pairs.as_bytes());
    Ok(())
}

// Plays a stream on a board opened on this book, a step for each line, and then compares the pairs.
// A step past the last command answers the empty line.
pub fn check_play<B: Book + Drop>(
    rt: &impl Abort,
    book: B,
    stream: &[u8],
    lines: &[&str],
    pairs: &str,
) -> Result<(), Fail> {
    let mut board = Board::open(book, ByNumber);
    let mut place = 0;
    for line in lines {
        place = play_one(rt, &mut board, stream, place, line)?;
    }
    check_pairs(rt, &board, pairs)
}
