// Two boards in one process, each fed a damaged stream.
use crate::playing::{check_pairs, check_play, play_one};
use bit_matrix::BitMatrix;
use board::Board;
use links::Book;
use ranking::ByNumber;
use std::process::Abort;
use std::test::Fail;

// Links 0 1 and 2 3, two commands that are refused, and a link that is cut short.
const ONE: [u8; 23] = [
    1, 0, 0, 0, 1, 1, 0, 2, 0, 3, 1, 0, 1, 0, 1, 2, 0, 4, 0, 5, 1, 0, 0,
];

const ONE_LINES: [&str; 7] = [
    "ok\n",
    "ok\n",
    "no 05 board 10\n",
    "no 07 book 15\n",
    "no 13 stream 20\n",
    "no 13 stream 20\n",
    "no 13 stream 20\n",
];

// Links 4 5 and 0 2, asks for 0, 4 departs, links 1 3, asks for 4, and a byte that is no command.
const TWO: [u8; 25] = [
    1, 0, 4, 0, 5, 1, 0, 0, 0, 2, 5, 0, 0, 4, 0, 4, 1, 0, 1, 0, 3, 5, 0, 4, 255,
];

const TWO_LINES: [&str; 7] = [
    "ok\n",
    "ok\n",
    "with 2\n",
    "ok\n",
    "ok\n",
    "alone\n",
    "no 12 stream 24\n",
];

#[test]
fn alone(rt: HostRuntime) -> Result<(), Fail> {
    let mut words = [0u64; 6];
    let book = BitMatrix::new(6, 9, &mut words);
    check_play(&rt, book, &ONE, &ONE_LINES, "0 1\n2 3\n")?;
    let book = BitMatrix::new(6, 9, &mut words);
    check_play(&rt, book, &TWO, &TWO_LINES, "0 2\n1 3\n")
}

// A step of one, a step of the other: the same lines and the same pairs.
fn play_in_turn<B: Book + Drop>(rt: &impl Abort, book_one: B, book_two: B) -> Result<(), Fail> {
    let mut one = Board::open(book_one, ByNumber);
    let mut two = Board::open(book_two, ByNumber);
    let mut place_one = 0;
    let mut place_two = 0;
    for (line_one, line_two) in ONE_LINES.iter().zip(&TWO_LINES) {
        place_one = play_one(rt, &mut one, &ONE, place_one, line_one)?;
        place_two = play_one(rt, &mut two, &TWO, place_two, line_two)?;
    }
    check_pairs(rt, &one, "0 1\n2 3\n")?;
    check_pairs(rt, &two, "0 2\n1 3\n")
}

#[test]
fn in_turn(rt: HostRuntime) -> Result<(), Fail> {
    let mut words_one = [0u64; 6];
    let mut words_two = [0u64; 6];
    play_in_turn(
        &rt,
        BitMatrix::new(6, 9, &mut words_one),
        BitMatrix::new(6, 9, &mut words_two),
    )
}
