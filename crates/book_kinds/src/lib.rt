//! The kinds of book, for the tests and trials that run over every one of them.
#![tactic(auto)]

ghost use Rattle.std.specs.Prelude.{◌≡◌, ℕ, ◌-◌, length, None, Option};
ghost use Rattle.graph.specs.Graph.{no_links};
ghost use Rattle.links.specs.Books.{Stands, fresh_ledger};
ghost use Rattle.links.specs.Refusals.{Reason, Answers};
ghost use Rattle.bit_matrix.specs.Matrix.{checking as matrix_checking};
ghost use Rattle.sorted_rows.specs.Rows.{checking as rows_checking};
ghost use Rattle.book_kinds.specs.declared.Shape.{Shape};

pub use bit_matrix::BitMatrix;
use links::{Book, Refused};
pub use sorted_rows::SortedRows;
use std::fmt::Debug;

/// What a book is made for. A kind without a row limit leaves that out of account.
#[derive(Clone, Copy, Debug)]
pub struct Shape {
    /// The number of loads.
    pub size: usize,
    /// The most links of one load.
    pub row_limit: usize,
    /// The most links of the book.
    pub limit: usize,
}

/// A book that is made in lent memory. The numbers here are for tests: they are worked out apart
/// from the crate of the book.
pub trait BookKind<'a>: Book + Drop {
    /// The first reason to refuse the making of a book of this shape in so many cells.
    ghost checking: { Shape → ℕ → Option Reason };

    /// How many links each load of a fresh book may take.
    ghost spares: { Shape → ℕ };

    /// A word or a number of the memory.
    type Cell: Clone + Copy + PartialEq + Debug + Drop;

    /// What a test fills the memory with, to see what is written.
    fn noise() -> Self::Cell;

    /// The name of the kind.
    const NAME: &'static str;

    /// Whether the making takes the row limit. If not, each load may be linked to every other.
    const HAS_ROW_LIMIT: bool;

    /// How many cells a book of this shape uses, where there are so many.
    fn need(shape: Shape) -> usize;

    /// How many links each load of a fresh book may take.
    fn fresh_spare(shape: Shape) -> usize;

    /// The `check` of the kind.
    fn check(shape: Shape, memory: &[Self::Cell]) -> Result<(), Refused>
        ensures { Answers (checking shape (length memory.now)) result (λ _. Unit {0}) };

    /// The `new` of the kind: a fresh book, where `check` finds no reason to refuse it.
    fn make(shape: Shape, memory: &'a mut [Self::Cell]) -> Self
        ensures made { Self.Links.made result }
        ensures fresh { checking shape (length memory.old) ≡ None →
            Stands Self.Links.graph Self.Links.made Self.Book.ledger result
            (no_links shape.size) (fresh_ledger shape.size (spares shape) shape.limit) };
}

impl<'a> BookKind<'a> for BitMatrix<'a> {
    ghost checking = { λ s cells. matrix_checking s.size s.limit cells };

    ghost spares = { λ s. s.size - 1 };

    type Cell = u64;

    const NAME: &'static str = "bit matrix";

    const HAS_ROW_LIMIT: bool = false;

    fn noise() -> u64 {
        0x5555
    }

    fn need(shape: Shape) -> usize {
        shape.size.saturating_mul(shape.size.div_ceil(64))
    }

    fn fresh_spare(shape: Shape) -> usize {
        shape.size.saturating_sub(1)
    }

    fn check(shape: Shape, memory: &[u64]) -> Result<(), Refused>
        ensures { Answers (matrix_checking shape.size shape.limit (length memory.now))
            result (λ _. Unit {0}) }
    {
        BitMatrix::check(shape.size, shape.limit, memory)
    }

    fn make(shape: Shape, memory: &'a mut [u64]) -> BitMatrix<'a> {
        BitMatrix::new(shape.size, shape.limit, memory)
    }
}

impl<'a> BookKind<'a> for SortedRows<'a> {
    ghost checking = { λ s cells. rows_checking s.size s.row_limit s.limit cells };

    ghost spares = { λ s. s.row_limit };

    type Cell = u16;

    const NAME: &'static str = "sorted rows";

    const HAS_ROW_LIMIT: bool = true;

    fn noise() -> u16 {
        0x5555
    }

    fn need(shape: Shape) -> usize {
        shape.size.saturating_mul(shape.row_limit.saturating_add(1))
    }

    fn fresh_spare(shape: Shape) -> usize {
        shape.row_limit
    }

    fn check(shape: Shape, memory: &[u16]) -> Result<(), Refused>
        ensures { Answers
            (rows_checking shape.size shape.row_limit shape.limit (length memory.now))
            result (λ _. Unit {0}) }
    {
        SortedRows::check(shape.size, shape.row_limit, shape.limit, memory)
    }

    fn make(shape: Shape, memory: &'a mut [u16]) -> SortedRows<'a> {
        SortedRows::new(shape.size, shape.row_limit, shape.limit, memory)
    }
}

/// Calls a macro for every kind of book, with the type and with the tokens given. **A new kind of
/// book is one line here.**
#[macro_export]
macro_rules! each_kind_of_book {
    ($call:ident $given:tt) => {
        $call!($crate::BitMatrix, $given);
        $call!($crate::SortedRows, $given);
    };
}
