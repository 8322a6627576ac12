//! A board: a book of links, a ranking, and the matching that is kept on them.
#![tactic(auto)]

ghost use Rattle.std.specs.Prelude.{◌≡◌, None};
ghost use Rattle.graph.specs.Graph.{Simple};
ghost use Rattle.links.specs.Books.{Bounded};
ghost use Rattle.links.specs.Refusals.{Answers};
ghost use Rattle.rules.specs.Calls.{unless_load};

use links::{Book, Layer, Links, Refusal, Refused};
use ranking::Ranking;
use repair::Repair;
use tables::Tables;

mod changes;
mod opening;
mod questions;

/// A book of links with a matching on it: the book, the ranking by which its loads choose, and the
/// tables in which their partners stand.
///
/// After `Board::open` and after every call, partners are each other's and linked, no augmenting
/// path has one or three links, and no free load has more links than the threshold. A call that is
/// refused leaves the board as it was. Its refusal tells the number of the reason and the layer
/// that found it: the board itself, or the book below it. No call changes the ranking, the size,
/// the limit or the barred pairs.
#[derive(Debug, Drop)]
pub struct Board<B, R> {
    book: B,
    ranking: R,
    tables: Tables,
}

// What a board's repairs go by: its links, its ranking, and the limit of its book.
fn repair_of<'a, B: Book, R: Ranking>(book: &'a B, ranking: &'a R) -> Repair<'a, B, R>
    ensures links { result.links.now ≡ book.now }
    ensures ranking { result.ranking.now ≡ ranking.now }
    ensures limit { B.Links.made book.now → result.limit ≡ (B.Book.ledger book.now).limit }
    ensures bounded { B.Links.made book.now →
        Bounded (B.Links.graph book.now) (B.Book.ledger book.now) }
{
    Repair::new(book, ranking, book.limit())
}

impl<B: Book, R: Ranking> Board<B, R> {
    // Refuses with 4 (board) where `a` is not a load.
    fn check_load(&self, a: usize) -> Result<(), Refused>
        ensures load { B.Links.made self.now.book →
            Answers (unless_load (B.Links.graph self.now.book) a None) result (λ _. Unit {0}) }
        ensures simple { B.Links.made self.now.book → Simple (B.Links.graph self.now.book) }
    {
        if a < self.book.size() {
            Ok(())
        } else {
            Err(Refusal::NoSuchLoad.by(Layer::Board))
        }
    }
}
