//! Memory that a caller lends for the book of a board, and what all of it holds after calls on the
//! board. The theorems are called for what their contracts say, and do nothing.
ghost use Rattle.std.specs.Prelude.{◌≡◌, None, [], ◌∷◌, ◌++◌, drop, length};
ghost use Rattle.links.specs.Refusals.{Answers, Kept};
ghost use Rattle.bit_matrix.specs.Matrix.{checking};
ghost use Rattle.sorted_rows.specs.Rows.{checking as checking_rows};
ghost use Rattle.rules.specs.Boards.{by_number};
ghost use Rattle.board_examples.specs.Lent.{PlaysOut, WordsAre};

use crate::link_all;
use bit_matrix::BitMatrix;
use board::Board;
use class_filter::ClassFilter;
use links::{Book, Links, Refused};
use ranking::ByNumber;
use sorted_rows::SortedRows;

// Six links, of which that of 0 and 1 is removed again; then load 4 departs with its partner 3. In
// between, the answer to linking 0 and 6, which is not a load.
fn play_out<B: Book>(board: &mut Board<B, ByNumber>) -> Result<Result<(), Refused>, Refused>
    ensures { PlaysOut B.Links.graph B.Links.made B.Book.ledger B.Book.fixed (λ _. by_number)
        board.old result board.new }
{
    link_all(board, &[(0, 1), (2, 3), (0, 2), (1, 3), (1, 5), (3, 4)])?;
    board.unlink(0, 1)?;
    let refused = board.link(0, 6);
    board.depart(4)?;
    Ok(refused)
}

// The book of a board on which six loads were played out, in the words that are lent.
fn played_words<'a>(words: &'a mut [u64]) -> BitMatrix<'a>
    ensures lender { result.words.ghost_name ≡ words.entry.ghost_name }
    ensures words { checking 6 8 (length words.old) ≡ None →
        WordsAre (4 ∷ 32 ∷ 1 ∷ 0 ∷ 0 ∷ 2 ∷ []) words.old result.words.now }
{
    bit_matrix::theorems::memory_follows();
    let mut board = Board::open(BitMatrix::new(6, 8, words), ByNumber);
    let _ = play_out(&mut board);
    board.into_book()
}

/// Opens a board over a bit matrix of six loads in the first six words, plays on it and lets it go.
/// The words then have the links of 0 and 2 and of 1 and 5 in them. Refused with 3 (book) where
/// there are fewer words, which stay as they are.
pub fn play_in_words(words: &mut [u64]) -> Result<(), Refused>
    ensures words { Answers (checking 6 8 (length words.old)) result
        (λ _. words.new ≡ 4 ∷ 32 ∷ 1 ∷ 0 ∷ 0 ∷ 2 ∷ drop 6 words.old) }
    ensures kept { Kept result words.old words.new }
{
    BitMatrix::check(6, 8, words)?;
    let _book = played_words(words);
    Ok(())
}

// The same in rows of six loads with row limit 5.
fn played_numbers<'a>(numbers: &'a mut [u16]) -> SortedRows<'a>
    ensures lender { result.rows.ghost_name ≡ numbers.entry.ghost_name }
    ensures numbers { checking_rows 6 5 8 (length numbers.old) ≡ None →
        result.rows.now ≡
        (1 ∷ 2 ∷ 0 ∷ 0 ∷ 0 ∷ 0 ∷ []) ++ (1 ∷ 5 ∷ 0 ∷ 0 ∷ 0 ∷ 0 ∷ []) ++
        (1 ∷ 0 ∷ 0 ∷ 0 ∷ 0 ∷ 0 ∷ []) ++ (0 ∷ 0 ∷ 0 ∷ 0 ∷ 0 ∷ 0 ∷ []) ++
        (0 ∷ 0 ∷ 0 ∷ 0 ∷ 0 ∷ 0 ∷ []) ++ (1 ∷ 1 ∷ 0 ∷ 0 ∷ 0 ∷ 0 ∷ []) ++ drop 36 numbers.old }
{
    sorted_rows::theorems::memory_follows();
    let mut board = Board::open(SortedRows::new(6, 5, 8, numbers), ByNumber);
    let _ = play_out(&mut board);
    board.into_book()
}

/// The same over rows of six loads with row limit 5, in the first 36 numbers.
pub fn play_in_numbers(numbers: &mut [u16]) -> Result<(), Refused>
    ensures numbers { Answers (checking_rows 6 5 8 (length numbers.old)) result (λ _. numbers.new ≡
        (1 ∷ 2 ∷ 0 ∷ 0 ∷ 0 ∷ 0 ∷ []) ++ (1 ∷ 5 ∷ 0 ∷ 0 ∷ 0 ∷ 0 ∷ []) ++
        (1 ∷ 0 ∷ 0 ∷ 0 ∷ 0 ∷ 0 ∷ []) ++ (0 ∷ 0 ∷ 0 ∷ 0 ∷ 0 ∷ 0 ∷ []) ++
        (0 ∷ 0 ∷ 0 ∷ 0 ∷ 0 ∷ 0 ∷ []) ++ (1 ∷ 1 ∷ 0 ∷ 0 ∷ 0 ∷ 0 ∷ []) ++ drop 36 numbers.old) }
    ensures kept { Kept result numbers.old numbers.new }
{
    SortedRows::check(6, 5, 8, numbers)?;
    let _book = played_numbers(numbers);
    Ok(())
}

// The bit matrix below a filter that hides the link of 0 and 1, after a board over that filter
// could remove the link of 1 and 2 alone.
fn filtered_words<'a>(words: &'a mut [u64]) -> BitMatrix<'a>
    ensures lender { result.words.ghost_name ≡ words.entry.ghost_name }
    ensures words { checking 3 3 (length words.old) ≡ None →
        WordsAre (2 ∷ 1 ∷ 0 ∷ []) words.old result.words.now }
{
    bit_matrix::theorems::memory_follows();
    let mut below = BitMatrix::new(3, 3, words);
    let _ = below.add(0, 1);
    let _ = below.add(1, 2);
    let book = ClassFilter::new(below, &[1, 2, 0], [0, 4, 0, 0, 0, 0, 0, 0]);
    let mut board = Board::open(book, ByNumber);
    let _ = board.unlink(0, 1);
    let _ = board.unlink(1, 2);
    board.into_book().into_below()
}

/// Plays on a board over a filter that hides the link of 0 and 1 in a bit matrix, which has that of
/// 1 and 2 as well, and lets all go. Through the board only the second can be removed, and the
/// first stays in the words. Refused with 3 (book) where there are fewer than three, which stay as
/// they are.
pub fn play_behind_filter(words: &mut [u64]) -> Result<(), Refused>
    ensures words { Answers (checking 3 3 (length words.old)) result
        (λ _. words.new ≡ 2 ∷ 1 ∷ 0 ∷ drop 3 words.old) }
    ensures kept { Kept result words.old words.new }
{
    BitMatrix::check(3, 3, words)?;
    let _book = filtered_words(words);
    Ok(())
}
