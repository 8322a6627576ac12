//! Memory that a caller lends for a book, and has back with the book's links in it. The theorems
//! are called for what their contracts say, and do nothing.
ghost use Rattle.std.specs.Prelude.{◌≡◌, [], ◌∷◌, ◌++◌, drop, length};
ghost use Rattle.links.specs.Refusals.{Answers, Kept};
ghost use Rattle.bit_matrix.specs.Matrix.{checking};
ghost use Rattle.sorted_rows.specs.Rows.{checking as checking_rows};

use bit_matrix::BitMatrix;
use links::{Book, Refused};
use sorted_rows::SortedRows;

/// Makes a bit matrix of three loads in the first three words, links 0 with 1 and 1 with 2, and
/// unlinks 1 and 2. The book refuses fewer words with 3, and they stay as they are.
pub fn link_in_words(words: &mut [u64]) -> Result<(), Refused>
    ensures words { Answers (checking 3 3 (length words.old)) result
        (λ _. words.new ≡ 2 ∷ 1 ∷ 0 ∷ drop 3 words.old) }
    ensures kept { Kept result words.old words.new }
{
    bit_matrix::theorems::memory_follows();
    BitMatrix::check(3, 3, words)?;
    let mut book = BitMatrix::new(3, 3, words);
    book.add(0, 1)?;
    book.add(1, 2)?;
    book.remove(2, 1)
}

/// The same in rows of three loads with row limit 2, which take the first nine numbers.
pub fn link_in_numbers(numbers: &mut [u16]) -> Result<(), Refused>
    ensures numbers { Answers (checking_rows 3 2 3 (length numbers.old)) result
        (λ _. numbers.new ≡
        (1 ∷ 1 ∷ 0 ∷ []) ++ (1 ∷ 0 ∷ 0 ∷ []) ++ (0 ∷ 0 ∷ 0 ∷ []) ++ drop 9 numbers.old) }
    ensures kept { Kept result numbers.old numbers.new }
{
    sorted_rows::theorems::memory_follows();
    SortedRows::check(3, 2, 3, numbers)?;
    let mut book = SortedRows::new(3, 2, 3, numbers);
    book.add(0, 1)?;
    book.add(1, 2)?;
    book.remove(2, 1)
}
