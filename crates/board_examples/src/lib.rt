//! Boards played through on real books. What must come of each stands in its contract, and follows
//! from the contracts of boards, books and rankings alone.
#![tactic(auto)]

ghost use Rattle.std.specs.Prelude.{◌≡◌, [], ◌∷◌, Some, None, Ok, Err};
ghost use Rattle.graph.specs.Graph.{no_links};
ghost use Rattle.links.specs.Books.{Stands};
ghost use Rattle.links.specs.Books.{fresh_ledger};
ghost use Rattle.board_examples.specs.Played.{Plays, Reads};

use bit_matrix::BitMatrix;
use board::Board;
use class_filter::ClassFilter;
use links::{Book, Layer, Refusal, Refused};
use ranking::detour::{ByDetour, Place};
use ranking::{ByNumber, Ranking};
use sorted_rows::SortedRows;

pub mod law;
pub mod memory;
pub mod stepping;

// Links each pair of loads in turn, up to the first that is refused.
fn link_all<B: Book, R: Ranking>(
    board: &mut Board<B, R>,
    pairs: &[(usize, usize)],
) -> Result<(), Refused>
    ensures { Plays B.Links.graph B.Links.made B.Book.ledger B.Book.fixed R.Ranking.before
        board.old pairs.now result board.new }
{
    for &(a, b) in pairs {
        board.link(a, b)?;
    }
    Ok(())
}

// The partners of the first N loads.
fn partners<B: Book, R: Ranking, const N: usize>(
    board: &Board<B, R>,
) -> Result<[Option<usize>; N], Refused>
    ensures { Reads B.Links.graph B.Links.made B.Book.ledger board.now N result }
{
    let mut partners = [None; N];
    for (a, partner) in partners.iter_mut().enumerate() {
        *partner = board.partner(a)?;
    }
    Ok(partners)
}

/// Six loads, on any book of that size that has no links yet and takes eight: when 0 and 1 are
/// unlinked, both find other partners.
pub fn six_loads<B: Book + Drop>(book: B) -> Result<[Option<usize>; 6], Refused>
    ensures { Stands B.Links.graph B.Links.made B.Book.ledger
        book (no_links 6) (fresh_ledger 6 5 8) →
        result ≡ Ok (Some 2 ∷ Some 5 ∷ Some 0 ∷ Some 4 ∷ Some 3 ∷ Some 1 ∷ []) }
{
    let mut board = Board::open(book, ByNumber);
    link_all(
        &mut board,
        &[(0, 1), (2, 3), (0, 2), (1, 3), (1, 5), (3, 4)],
    )?;
    board.unlink(0, 1)?;
    partners(&board)
}

/// The six loads on a bit matrix: 0 is with 2, 1 with 5, and 3 with 4.
pub fn six_loads_on_bit_matrix() -> Result<[Option<usize>; 6], Refused>
    ensures { result ≡ Ok (Some 2 ∷ Some 5 ∷ Some 0 ∷ Some 4 ∷ Some 3 ∷ Some 1 ∷ []) }
{
    let mut words = [0; 6];
    six_loads(BitMatrix::new(6, 8, &mut words))
}

/// A row takes five, so that every load can be linked to every other, as in a bit matrix.
pub fn six_loads_on_rows() -> Result<[Option<usize>; 6], Refused>
    ensures { result ≡ Ok (Some 2 ∷ Some 5 ∷ Some 0 ∷ Some 4 ∷ Some 3 ∷ Some 1 ∷ []) }
{
    let mut numbers = [0; 36];
    six_loads(SortedRows::new(6, 5, 8, &mut numbers))
}

/// The partners of seven loads, before a link and after it.
#[derive(Debug, Drop)]
pub struct Displacement {
    /// Before load 0 has its fifth link.
    pub before: [Option<usize>; 7],
    /// And with it.
    pub after: [Option<usize>; 7],
}

/// Load 0 has four links and is free; with the fifth it has more than the threshold, and displaces
/// load 2.
pub fn heavy_load_on_bit_matrix() -> Result<Displacement, Refused>
    ensures { result ≡ Ok (record {
      before = None ∷ Some 2 ∷ Some 1 ∷ Some 4 ∷ Some 3 ∷ Some 6 ∷ Some 5 ∷ [];
      after = Some 1 ∷ Some 0 ∷ None ∷ Some 4 ∷ Some 3 ∷ Some 6 ∷ Some 5 ∷ [];
    }) }
{
    let mut words = [0; 7];
    let mut board = Board::open(BitMatrix::new(7, 8, &mut words), ByNumber);
    link_all(
        &mut board,
        &[(1, 2), (3, 4), (5, 6), (0, 1), (0, 2), (0, 3), (0, 4)],
    )?;
    let before = partners(&board)?;
    board.link(0, 5)?;
    let after = partners(&board)?;
    Ok(Displacement { before, after })
}

/// What a board on a filter that hides the link of 0 and 1 answers.
#[derive(Debug, Drop)]
pub struct Filtered {
    /// To linking 0 and 1.
    pub linking: Result<(), Refused>,
    /// To unlinking them.
    pub unlinking: Result<(), Refused>,
    /// To the question for the partner of each load.
    pub partners: Result<[Option<usize>; 3], Refused>,
    /// To the question how many free loads load 1 is linked to.
    pub free_links: Result<usize, Refused>,
}

/// A bit matrix brings the links 0–1 and 1–2, and the classes of 0 and 1 are barred: 1 and 2 are
/// partners, 0 is free, and as far as the board goes 0 and 1 are not linked, and cannot be.
pub fn behind_a_filter() -> Result<Filtered, Refused>
    ensures { result ≡ Ok (record {
      linking = Err (record { refusal = Refusal.Barred; layer = Layer.Book });
      unlinking = Err (record { refusal = Refusal.NotLinked; layer = Layer.Book });
      partners = Ok (None ∷ Some 2 ∷ Some 1 ∷ []);
      free_links = Ok 0;
    }) }
{
    let mut words = [0; 3];
    let mut below = BitMatrix::new(3, 3, &mut words);
    below.add(0, 1)?;
    below.add(1, 2)?;
    let book = ClassFilter::new(below, &[1, 2, 0], [0, 4, 0, 0, 0, 0, 0, 0]);
    let mut board = Board::open(book, ByNumber);
    Ok(Filtered {
        linking: board.link(0, 1),
        unlinking: board.unlink(0, 1),
        partners: partners(&board),
        free_links: board.free_links(1),
    })
}

/// Load 0 is linked to 1, by a detour of 7, and to 2, by one of 6: 2 is its partner, though 1 has
/// the lower number.
pub fn nearer_partner_first() -> Result<[Option<usize>; 3], Refused>
    ensures { result ≡ Ok (Some 2 ∷ None ∷ Some 0 ∷ []) }
{
    let places = [
        Place { x: 0, y: 0 },
        Place { x: -3, y: 4 },
        Place { x: 5, y: 1 },
    ];
    let mut words = [0; 3];
    let mut book = BitMatrix::new(3, 3, &mut words);
    book.add(0, 1)?;
    book.add(0, 2)?;
    let board = Board::open(book, ByDetour::new(&places));
    partners(&board)
}
