//! What the law of runs says of a board in play, of which no repair is computed.
ghost use Rattle.graph.specs.Graph.{no_links};
ghost use Rattle.links.specs.Books.{Stands};
ghost use Rattle.links.specs.Books.{fresh_ledger};
ghost use Rattle.board_examples.specs.Lawful.{LawSeen};

use crate::{link_all, partners};
use bit_matrix::BitMatrix;
use board::Board;
use links::{Book, Refused};
use ranking::{ByNumber, Ranking};

/// The partners of twenty-four loads at three moments.
#[derive(Debug, Drop)]
pub struct Readings {
    /// After six pairs were linked.
    pub linked: [Option<usize>; 24],
    /// After 0 and 1 were unlinked.
    pub unlinked: [Option<usize>; 24],
    /// After 3 was withdrawn.
    pub withdrawn: [Option<usize>; 24],
}

/// Links six pairs of twenty-four loads, unlinks 0 and 1, and withdraws 3, on any book of that size
/// that has no links yet and takes thirty, and by any ranking.
pub fn read_by_law<B: Book + Drop, R: Ranking + Drop>(
    book: B,
    ranking: R,
) -> Result<Readings, Refused>
    ensures { Stands B.Links.graph B.Links.made B.Book.ledger book (no_links 24)
        (fresh_ledger 24 23 30) → LawSeen result }
{
    let mut board = Board::open(book, ranking);
    link_all(
        &mut board,
        &[(0, 1), (2, 3), (0, 2), (1, 3), (1, 5), (3, 4)],
    )?;
    let linked = partners(&board)?;
    board.unlink(0, 1)?;
    let unlinked = partners(&board)?;
    board.withdraw(3)?;
    let withdrawn = partners(&board)?;
    Ok(Readings {
        linked,
        unlinked,
        withdrawn,
    })
}

/// The same on a bit matrix, where the load with the lower number comes first.
pub fn read_by_law_on_bit_matrix() -> Result<Readings, Refused>
    ensures { LawSeen result }
{
    let mut words = [0; 24];
    read_by_law(BitMatrix::new(24, 30, &mut words), ByNumber)
}
