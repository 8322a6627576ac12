//! A book of links that holds a bit for each ordered pair of loads.
#![tactic(auto)]

ghost use Rattle.std.specs.Prelude.{◌≡◌, ◌≤◌, true, false, ◌&&◌, length, is_ok};
ghost use Rattle.links.specs.Books.{Adds, Removes};
ghost use Rattle.links.specs.Refusals.{Answers};
ghost use Rattle.bit_matrix.specs.Matrix.{row_words, is_place, is_link_place, held, matrix_row};
ghost use Rattle.bit_matrix.specs.Matrix.{matrix_graph, matrix_ledger, MatrixMade, rewritten, checking};
ghost use Rattle.bit_matrix.specs.Matrix.{Making, MatrixFixed, matrix_fixed, Written};

/// What holds of every made bit matrix.
pub mod theorems;

use bits::{bit_of, count_bits, next_member, put_bit};
use links::{
    Book, Layer, Links, Refusal, Refused, Tally, check_limit, check_open, check_remove, check_room,
    check_size,
};

/// A book of links in words that the caller lends, a bit for each ordered pair of loads. Each load
/// has a row of w words, size / 64 rounded up: row a begins at word a × w, and has a 1 for b in its
/// word b / 64, at bit b mod 64, where the two are linked. A link is there in both directions, and
/// the bits of no load are 0. A load may be linked to every other, and no pair is barred. A made
/// matrix never refuses because a load is full (9).
#[derive(Debug, Drop)]
pub struct BitMatrix<'a> {
    // narrow, so that no index of a word overflows
    size: u16,
    tally: Tally,
    words: &'a mut [u64],
}

// How many words a row has.
fn row_words(size: usize) -> usize
    ensures { result ≡ row_words size }
{
    size.div_ceil(64)
}

impl<'a> BitMatrix<'a> {
    /// Whether a matrix of `size` loads and at most `limit` links can be made in these words. The
    /// book refuses a size that is not 1 to 256 with 1, then a limit that is not 1 to 32,640 with
    /// 2, then fewer words than size × w with 3.
    pub fn check(size: usize, limit: usize, words: &[u64]) -> Result<(), Refused>
        ensures { Answers (checking size limit (length words.now)) result (λ _. Unit {0}) }
    {
        check_size(size)?;
        check_limit(limit)?;
        if words.len() < size * row_words(size) {
            return Err(Refusal::WrongLength.by(Layer::Book));
        }
        Ok(())
    }

    /// Makes a book with no links. Clears the first size × w words, and writes no other. Where
    /// `check` would refuse, the book has no loads and limit 0, and the words stay as they are.
    pub fn new(size: usize, limit: usize, words: &'a mut [u64]) -> BitMatrix<'a>
        ensures made { MatrixMade result }
        ensures making { Making (checking size limit (length words.old))
            size limit words.old result }
        ensures lender { result.words.ghost_name ≡ words.entry.ghost_name }
    {
        match BitMatrix::check(size, limit, words) {
            Ok(()) => {
                let used = size * row_words(size);
                words[0..used].fill(0);
                // 256 at most, as checked
                BitMatrix {
                    size: size as u16,
                    tally: Tally::new(limit),
                    words,
                }
            }
            Err(_) => BitMatrix {
                size: 0,
                tally: Tally::new(0),
                words,
            },
        }
    }
}

impl BitMatrix<'_> {
    // The words of row a, as far as there are words.
    fn row(&self, a: usize) -> &[u64]
        ensures value { result.now ≡ matrix_row self.now.size self.now.words.now a }
        ensures bound { length result.now ≤ 1024 }
    {
        let size = usize::from(self.size);
        if a >= size {
            return &[];
        }
        let width = row_words(size);
        let start = self.words.len().min(a * width);
        let end = self.words.len().min(start + width);
        &self.words[start..end]
    }

    // Puts the bit of load b in row a to `on`, where these are loads and there is a word for it.
    // Nothing else is written.
    fn put(&mut self, a: usize, b: usize, on: bool)
        ensures rest { self.new ≡ rewritten self.old self.old.tally self.new.words.now }
        ensures written { let m = self.old in
            Written on (λ k j. held m a b k && is_place m.size a b k j)
            m.words.now self.new.words.now }
        ensures stays { matrix_fixed self.new ≡ matrix_fixed self.old }
    {
        let size = usize::from(self.size);
        if a < size && b < size {
            let i = a * row_words(size) + b / 64;
            if i < self.words.len() {
                self.words[i] = put_bit(self.words[i], b, on);
            }
        }
    }

    // The same for the two bits of the link of a and b.
    fn put_link(&mut self, a: usize, b: usize, on: bool)
        ensures rest { self.new ≡ rewritten self.old self.old.tally self.new.words.now }
        ensures written { let m = self.old in
            Written on (λ k j. held m a b k && is_link_place m.size a b k j)
            m.words.now self.new.words.now }
        ensures stays { matrix_fixed self.new ≡ matrix_fixed self.old }
    {
        self.put(a, b, on);
        self.put(b, a, on);
    }
}

impl Links for BitMatrix<'_> {
    ghost graph = { matrix_graph };

    ghost made = { MatrixMade };

    fn size(&self) -> usize {
        usize::from(self.size)
    }

    /// Whether a and b are linked. Reads one word.
    fn linked(&self, a: usize, b: usize) -> bool {
        self.row(a).get(b / 64).is_some_and(|word| bit_of(*word, b))
    }

    /// The number of links of a. Reads the w words of its row.
    fn degree(&self, a: usize) -> usize {
        self.row(a).iter().map(|word| count_bits(*word)).sum()
    }

    /// The smallest load at or above `from` that is linked to a. Reads at most the w words of its
    /// row.
    fn next_linked(&self, a: usize, from: usize) -> Option<usize> {
        next_member(self.row(a), from)
    }

    fn link_count(&self) -> usize {
        self.tally.count
    }
}

impl Book for BitMatrix<'_> {
    ghost ledger = { matrix_ledger };

    ghost Fixed = { MatrixFixed };

    ghost fixed = { matrix_fixed };

    fn limit(&self) -> usize {
        self.tally.limit
    }

    /// No pair is barred.
    fn is_barred(&self, _a: usize, _b: usize) -> bool {
        false
    }

    /// How many more links a may take: the loads that it is not linked to. Reads the w words of its
    /// row.
    fn spare(&self, a: usize) -> usize {
        let size = usize::from(self.size);
        if a >= size {
            return 0;
        }
        (size - 1).saturating_sub(self.degree(a))
    }

    fn room(&self) -> usize {
        self.tally.room()
    }

    /// Links a and b. The book refuses with 4, 5, 6 or 10, in this order, and stays as it was.
    /// Reads one word, and writes two.
    fn add(&mut self, a: usize, b: usize) -> Result<(), Refused>
        ensures book { Adds matrix_graph MatrixMade matrix_ledger self.old a b result self.new }
        ensures words { MatrixMade self.old → is_ok result ≡ true →
            Written true (is_link_place self.old.size a b) self.old.words.now self.new.words.now }
        ensures stays { matrix_fixed self.new ≡ matrix_fixed self.old }
    {
        check_open(self, a, b, false)?;
        // a load without a spare is linked to every other, so no spare has to be asked for
        check_room(self.room())?;
        self.put_link(a, b, true);
        self.tally.add_one();
        Ok(())
    }

    /// Unlinks a and b. The book refuses with 4, 5 or 7, in this order, and stays as it was. Reads
    /// one word, and writes two.
    fn remove(&mut self, a: usize, b: usize) -> Result<(), Refused>
        ensures book { Removes matrix_graph MatrixMade matrix_ledger self.old a b result self.new }
        ensures words { MatrixMade self.old → is_ok result ≡ true →
            Written false (is_link_place self.old.size a b) self.old.words.now self.new.words.now }
        ensures stays { matrix_fixed self.new ≡ matrix_fixed self.old }
    {
        check_remove(self, a, b)?;
        self.put_link(a, b, false);
        self.tally.remove_one();
        Ok(())
    }
}
