// Whole streams: the lines that they are answered by, and the pairs that are left.
use crate::playing::check_play;
use bit_matrix::BitMatrix;
use book_kinds::{BookKind, Shape, each_kind_of_book};
use class_filter::ClassFilter;
use sorted_rows::SortedRows;
use std::alloc::Global;
use std::process::Abort;
use std::test::Fail;

// A stream, the lines that answer it, and the pairs that are left.
#[derive(Clone, Copy)]
struct Session<'a> {
    stream: &'a [u8],
    lines: &'a [&'a str],
    pairs: &'a str,
}

macro_rules! play_on_kind {
    ($kind:ty, ($rt:ident, $alloc:ident, $shape:ident, $session:ident)) => {
        let need = <$kind as BookKind>::need($shape);
        let mut memory = vec![in $alloc; <$kind as BookKind>::noise(); need]?;
        let book = <$kind as BookKind>::make($shape, &mut memory);
        check_play($rt, book, $session.stream, $session.lines, $session.pairs)?;
    };
}

// Plays a session on a fresh book of every kind.
fn play_everywhere(
    rt: &impl Abort,
    alloc: Global,
    shape: Shape,
    session: Session<'_>,
) -> Result<(), Fail> {
    each_kind_of_book!(play_on_kind(rt, alloc, shape, session));
    Ok(())
}

// Four loads, each of which may have every link, and at most so many links.
fn four_loads(limit: usize) -> Shape {
    Shape {
        size: 4,
        row_limit: 3,
        limit,
    }
}

const FOUR_IN_A_ROW: [u8; 24] = [
    1, 0, 1, 0, 2, 1, 0, 0, 0, 1, 1, 0, 2, 0, 3, 5, 0, 1, 1, 0, 2, 0, 2, 9,
];

const FOUR_IN_A_ROW_LINES: [&str; 7] = [
    "ok\n",
    "ok\n",
    "ok\n",
    "with 0\n",
    "no 05 board 18\n",
    "no 12 stream 23\n",
    // the place stays
    "no 12 stream 23\n",
];

// Four loads in a row, a question, a load linked to itself, and a byte that is no command.
#[test]
fn four_in_a_row(rt: HostRuntime) -> Result<(), Fail> {
    let shape = Shape {
        size: 256,
        row_limit: 255,
        limit: 2048,
    };
    let session = Session {
        stream: &FOUR_IN_A_ROW,
        lines: &FOUR_IN_A_ROW_LINES,
        pairs: "0 1\n2 3\n",
    };
    play_everywhere(&rt, rt.alloc(), shape, session)
}

const CUT_SHORT: [u8; 9] = [1, 0, 0, 0, 1, 1, 0, 2, 0];

const CUT_SHORT_LINES: [&str; 3] = ["ok\n", "no 13 stream 5\n", "no 13 stream 5\n"];

#[test]
fn cut_short(rt: HostRuntime) -> Result<(), Fail> {
    let session = Session {
        stream: &CUT_SHORT,
        lines: &CUT_SHORT_LINES,
        pairs: "0 1\n",
    };
    play_everywhere(&rt, rt.alloc(), four_loads(9), session)
}

const NO_SUCH_LOAD: [u8; 19] = [1, 0, 4, 0, 4, 2, 0, 0, 255, 255, 3, 0, 4, 4, 0, 4, 5, 1, 0];

const NO_SUCH_LOAD_LINES: [&str; 6] = [
    "no 04 board 0\n",
    "no 04 board 5\n",
    "no 04 board 10\n",
    "no 04 board 13\n",
    "no 04 board 16\n",
    "",
];

// Each command with a load that is not there: 4 counts before every other reason.
#[test]
fn no_such_load(rt: HostRuntime) -> Result<(), Fail> {
    let session = Session {
        stream: &NO_SUCH_LOAD,
        lines: &NO_SUCH_LOAD_LINES,
        pairs: "",
    };
    play_everywhere(&rt, rt.alloc(), four_loads(9), session)
}

// Unlink 3 3, depart 1, ask for 1, unlink 0 1, link 0 1, link 1 0, link 2 3, depart 2.
const ONE_LINK: [u8; 34] = [
    2, 0, 3, 0, 3, 4, 0, 1, 5, 0, 1, 2, 0, 0, 0, 1, 1, 0, 0, 0, 1, 1, 0, 1, 0, 0, 1, 0, 2, 0, 3, 4,
    0, 2,
];

const ONE_LINK_LINES: [&str; 9] = [
    "no 05 board 0\n",
    "no 11 board 5\n",
    "alone\n",
    "no 07 book 11\n",
    "ok\n",
    "no 06 book 21\n",
    "no 10 book 26\n",
    "no 11 board 31\n",
    "",
];

// What a board and a book that takes one link refuse.
#[test]
fn one_link(rt: HostRuntime) -> Result<(), Fail> {
    let session = Session {
        stream: &ONE_LINK,
        lines: &ONE_LINK_LINES,
        pairs: "0 1\n",
    };
    play_everywhere(&rt, rt.alloc(), four_loads(1), session)
}

const FULL_ROW: [u8; 21] = [
    1, 0, 0, 0, 1, 1, 0, 0, 0, 2, 3, 0, 1, 1, 0, 0, 0, 2, 5, 0, 1,
];

const FULL_ROW_LINES: [&str; 6] = ["ok\n", "no 09 book 5\n", "ok\n", "ok\n", "alone\n", ""];

// Rows of one link each: the link of 0 and 1 leaves no spare for 0 and 2, until 1 is withdrawn.
#[test]
fn full_row(rt: HostRuntime) -> Result<(), Fail> {
    let mut numbers = [0u16; 8];
    let book = SortedRows::new(4, 1, 9, &mut numbers);
    check_play(&rt, book, &FULL_ROW, &FULL_ROW_LINES, "0 2\n")
}

const BARRED: [u8; 18] = [1, 0, 0, 0, 1, 2, 0, 1, 0, 0, 1, 0, 1, 0, 2, 5, 0, 2];

const BARRED_LINES: [&str; 5] = ["no 08 book 0\n", "no 07 book 5\n", "ok\n", "with 1\n", ""];

// Loads 0 and 1 have the classes 1 and 2, which may not travel together; load 2 has class 0.
#[test]
fn barred(rt: HostRuntime) -> Result<(), Fail> {
    let mut words = [0u64; 3];
    let below = BitMatrix::new(3, 3, &mut words);
    let book = ClassFilter::new(below, &[1, 2, 0], [0, 4, 0, 0, 0, 0, 0, 0]);
    check_play(&rt, book, &BARRED, &BARRED_LINES, "1 2\n")
}
