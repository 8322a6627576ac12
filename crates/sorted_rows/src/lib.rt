//! A book of links in rows of equal length, one row for each load.
#![tactic(auto)]

ghost use Rattle.std.specs.Prelude.{◌≡◌, length, None, MatchOption, nat_lt};
ghost use Rattle.strict_order.specs.StrictOrder.{Rises, FirstUnordered};
ghost use Rattle.links.specs.Books.{Adds, Removes};
ghost use Rattle.links.specs.Refusals.{Answers};
ghost use Rattle.sorted_rows.specs.Row.{row_with, row_without};
ghost use Rattle.sorted_rows.specs.RowMemory.{BothChanged};
ghost use Rattle.sorted_rows.specs.Rows.{loads_in_row, rows_graph, rows_ledger, RowsMade};
ghost use Rattle.sorted_rows.specs.Rows.{RowsFixed, rows_fixed, checking, Making, Written};

mod row;
/// What holds of every made book in rows.
pub mod theorems;

use links::{
    Allowance, Book, Layer, Links, Refusal, Refused, Tally, check_left, check_limit, check_open,
    check_remove, check_size, check_within,
};
use row::{Change, change_row, position, row_loads};
use strict_order::first_unordered;

/// The highest row limit that rows can have: a link of a load to every other.
pub const MOST_ROW_LIMIT: usize = 255;

/// A book of links in numbers that the caller lends. Each load has a row of row limit + 1 numbers:
/// how many links it has, the loads that it is linked to in rising order, then zeros. No pair is
/// barred.
#[derive(Debug, Drop)]
pub struct SortedRows<'a> {
    size: u16,
    row_limit: u8,
    tally: Tally,
    rows: &'a mut [u16],
}

impl<'a> SortedRows<'a> {
    /// Whether a book of `size` loads with these limits can be made in this memory. The book
    /// refuses a size that is not 1 to 256 with 1, then a limit that is not 1 to 32,640 with 2,
    /// then a row limit that is not 1 to 255 with 2, then fewer than size × (row limit + 1) numbers
    /// with 3.
    pub fn check(size: usize, row_limit: usize, limit: usize, rows: &[u16]) -> Result<(), Refused>
        ensures { Answers (checking size row_limit limit (length rows.now)) result (λ _. Unit {0}) }
    {
        check_size(size)?;
        check_limit(limit)?;
        check_within(row_limit, MOST_ROW_LIMIT, Refusal::LimitOutOfRange)?;
        if rows.len() < size * (row_limit + 1) {
            return Err(Refusal::WrongLength.by(Layer::Book));
        }
        Ok(())
    }

    /// Makes a book without links. Clears the first size × (row limit + 1) numbers, and writes no
    /// other. Where `check` would refuse, the book has no loads and limit 0, and the memory stays
    /// as it is.
    pub fn new(size: usize, row_limit: usize, limit: usize, rows: &'a mut [u16]) -> SortedRows<'a>
        ensures made { RowsMade result }
        ensures making { Making (checking size row_limit limit (length rows.old))
            size row_limit limit rows.old result }
        ensures lender { result.rows.ghost_name ≡ rows.entry.ghost_name }
    {
        match SortedRows::check(size, row_limit, limit, rows) {
            Ok(_) => {
                rows[0..size * (row_limit + 1)].fill(0);
                // 256 and 255 at most, as checked
                SortedRows {
                    size: size as u16,
                    row_limit: row_limit as u8,
                    tally: Tally::new(limit),
                    rows,
                }
            }
            Err(_) => SortedRows {
                size: 0,
                row_limit: 0,
                tally: Tally::new(0),
                rows,
            },
        }
    }
}

impl SortedRows<'_> {
    // The loads in row a.
    fn row(&self, a: usize) -> &[u16]
        ensures { result.now ≡ loads_in_row self.now a }
    {
        row_loads(self.rows, self.size, self.row_limit, a)
    }

    /// The index, among the loads of row a, of the first that is not above the load in front of it;
    /// `None` where they rise, as in each made book. Reads the loads of the row up to it.
    pub fn row_break(&self, a: usize) -> Option<usize>
        ensures first { MatchOption result (Rises nat_lt (loads_in_row self.now a))
            (λ i. FirstUnordered nat_lt (loads_in_row self.now a) i) }
        ensures none { RowsMade self.now → result ≡ None }
    {
        first_unordered(self.row(a))
    }
}

// Puts each of two loads into the row of the other, or takes it out. There is a row for each load
// below `size`.
fn change_both(rows: &mut [u16], size: u16, row_limit: u8, a: usize, b: usize, change: Change)
    ensures { BothChanged change size row_limit a b rows.old rows.new }
{
    if a < usize::from(size) && b < usize::from(size) {
        change_row(rows, row_limit, a as u16, b as u16, change);
        change_row(rows, row_limit, b as u16, a as u16, change);
    }
}

impl Links for SortedRows<'_> {
    ghost graph = { rows_graph };

    ghost made = { RowsMade };

    fn size(&self) -> usize {
        usize::from(self.size)
    }

    /// Whether a and b are linked. Reads the loads of row a up to b.
    fn linked(&self, a: usize, b: usize) -> bool {
        let row = self.row(a);
        row.get(position(row, b))
            .is_some_and(|x| usize::from(*x) == b)
    }

    /// The number of links of a. Reads the count of its row.
    fn degree(&self, a: usize) -> usize {
        self.row(a).len()
    }

    /// The smallest load at or above `from` that is linked to a. Reads the loads of its row up to
    /// that.
    fn next_linked(&self, a: usize, from: usize) -> Option<usize> {
        let row = self.row(a);
        row.get(position(row, from)).map(|x| usize::from(*x))
    }

    fn link_count(&self) -> usize {
        self.tally.count
    }
}

impl Book for SortedRows<'_> {
    ghost ledger = { rows_ledger };

    ghost Fixed = { RowsFixed };

    ghost fixed = { rows_fixed };

    fn limit(&self) -> usize {
        self.tally.limit
    }

    /// No pair is barred.
    fn is_barred(&self, _a: usize, _b: usize) -> bool {
        false
    }

    /// How many more links a may take: the row limit less its degree. Reads the count of its row.
    fn spare(&self, a: usize) -> usize {
        if a >= usize::from(self.size) {
            return 0;
        }
        usize::from(self.row_limit).saturating_sub(self.row(a).len())
    }

    fn room(&self) -> usize {
        self.tally.room()
    }

    /// Links a and b. The book refuses with 4, 5, 6, 9 or 10, in this order, and stays as it was.
    /// Reads and moves loads within rows a and b alone.
    fn add(&mut self, a: usize, b: usize) -> Result<(), Refused>
        ensures book { Adds rows_graph RowsMade rows_ledger self.old a b result self.new }
        ensures written { Written row_with self.old a b result self.new }
        ensures stays { rows_fixed self.new ≡ rows_fixed self.old }
    {
        check_open(self, a, b, false)?;
        check_left(Allowance {
            spare_a: self.spare(a),
            spare_b: self.spare(b),
            room: self.room(),
        })?;
        let (size, row_limit) = (self.size, self.row_limit);
        change_both(self.rows, size, row_limit, a, b, Change::Insert);
        self.tally.add_one();
        Ok(())
    }

    /// Unlinks a and b. The book refuses with 4, 5 or 7, in this order, and stays as it was. Reads
    /// and moves loads within rows a and b alone.
    fn remove(&mut self, a: usize, b: usize) -> Result<(), Refused>
        ensures book { Removes rows_graph RowsMade rows_ledger self.old a b result self.new }
        ensures written { Written row_without self.old a b result self.new }
        ensures stays { rows_fixed self.new ≡ rows_fixed self.old }
    {
        check_remove(self, a, b)?;
        let (size, row_limit) = (self.size, self.row_limit);
        change_both(self.rows, size, row_limit, a, b, Change::Remove);
        self.tally.remove_one();
        Ok(())
    }
}
