// Steps of a stream, and the list of the pairs.
use crate::playing::play_one;
use bit_matrix::BitMatrix;
use board::Board;
use links::{Book, Layer, Refusal, Refused};
use ranking::{ByNumber, Ranking};
use std::process::Abort;
use std::test::Fail;
use stream::{Stepped, list_pairs, step};

// Links 0 and 1.
const LINK: [u8; 5] = [1, 0, 0, 0, 1];

// Makes a step with an output of dots, and compares what it answers and what the output then holds.
fn check_step<B: Book, R: Ranking, const N: usize>(
    rt: &impl Abort,
    board: &mut Board<B, R>,
    stream: &[u8],
    place: usize,
    answer: Result<Stepped, Refused>,
    expected: [u8; N],
) {
    let mut out = [b'.'; N];
    assert_eq!(rt; step(board, stream, place, &mut out), answer);
    assert_eq!(rt; out, expected);
}

// An output of 18 bytes is refused, whatever the line would be; at the end of the stream and past
// it nothing happens. So the link is made only then, and 19 bytes are enough.
#[test]
fn outputs(rt: HostRuntime) {
    let mut words = [0u64; 4];
    let mut board = Board::open(BitMatrix::new(4, 9, &mut words), ByNumber);
    let refused = Err(Refusal::OutputTooShort.by(Layer::Stream));
    check_step(&rt, &mut board, &LINK, 0, refused, [b'.'; 18]);
    for place in [5, 6, usize::MAX] {
        let nothing = Ok(Stepped { place, written: 0 });
        check_step(&rt, &mut board, &LINK, place, nothing, [b'.'; 19]);
    }
    let done = Ok(Stepped {
        place: 5,
        written: 3,
    });
    check_step(&rt, &mut board, &LINK, 0, done, *b"ok\n................");
}

// The longest stream has the longest line; one byte more is refused before a short output is.
#[test]
fn longest(rt: HostRuntime) -> Result<(), Fail> {
    let bytes = [0u8; 65_537];
    let mut words = [0u64; 4];
    let mut board = Board::open(BitMatrix::new(4, 9, &mut words), ByNumber);
    play_one(
        &rt,
        &mut board,
        &bytes[..65_536],
        65_535,
        "no 12 stream 65535\n",
    )?;
    let refused = Err(Refusal::WrongLength.by(Layer::Stream));
    check_step(&rt, &mut board, &bytes, 0, refused, [b'.'; 18]);
    Ok(())
}

// Lists the pairs in an output of dots, and compares what is answered and what the output then
// holds.
fn check_list<B: Book, R: Ranking, const N: usize>(
    rt: &impl Abort,
    board: &Board<B, R>,
    answer: Result<usize, Refused>,
    expected: [u8; N],
) {
    let mut out = [b'.'; N];
    assert_eq!(rt; list_pairs(board, &mut out), answer);
    assert_eq!(rt; out, expected);
}

// None, one and two pairs on a book of 256 loads.
fn check_lists<B: Book + Drop>(rt: &impl Abort, book: B) -> Result<(), Fail> {
    let mut board = Board::open(book, ByNumber);
    let refused = Err(Refusal::OutputTooShort.by(Layer::Stream));
    check_list(rt, &board, Ok(0), []);
    board.link(255, 254)?;
    check_list(rt, &board, refused, [b'.'; 7]);
    check_list(rt, &board, Ok(8), *b"254 255\n");
    board.link(7, 0)?;
    check_list(rt, &board, refused, [b'.'; 15]);
    check_list(rt, &board, Ok(12), *b"0 7\n254 255\n....");
    Ok(())
}

// A list needs 8 bytes for each pair, though its lines may be shorter, and none where there is no
// pair.
#[test]
fn lists(rt: HostRuntime) -> Result<(), Fail> {
    let mut words = [0u64; 1024];
    check_lists(&rt, BitMatrix::new(256, 9, &mut words))
}
