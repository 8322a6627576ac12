// How a board is opened on a book, and let go.
ghost use Rattle.std.specs.Prelude.{◌≡◌, ◌+◌, ◌<◌};
ghost use Rattle.tables.specs.Changes.{OfLinks};
ghost use Rattle.board.specs.Boards.{Opens};
ghost use Rattle.board.specs.Runs.{Law};
ghost use Rattle.board.specs.Recording.{AllFree, links_before};

use crate::{Board, repair_of};
use links::members::linked_loads;
use links::{Book, Links, MOST_LOADS};
use ranking::Ranking;
use std::array;
use tables::Tables;

// Records the links of a with the loads below it.
fn record_below<L: Links>(tables: &mut Tables, links: &L, a: usize)
    ensures { OfLinks (L.Links.made links.now) (L.Links.graph links.now)
        (λ g. a < g.size →
        AllFree (links_before g a 0) tables.old → AllFree (links_before g (a + 1) 0) tables.new) }
{
    for b in linked_loads(links, a, a) {
        tables.link(a, b);
    }
}

// The tables of the links of the loads below `size`, all of which are free.
fn recorded<L: Links>(links: &L, size: usize) -> Tables
    ensures { OfLinks (L.Links.made links.now) (L.Links.graph links.now)
        (λ g. size ≡ g.size → AllFree g result) }
{
    let mut tables = Tables::new();
    for a in 0..size {
        record_below(&mut tables, links, a);
    }
    tables
}

impl<B: Book, R: Ranking> Board<B, R> {
    /// Opens a board on a book, whose links it takes over: all loads are free at first, and then
    /// all are repaired, from the lowest on.
    ///
    /// Never refused. The book stays as it is, whether it came from its making or not. On one that
    /// did, the promises of a board hold from here on, after any calls in any order.
    ///
    /// Costs a look at every link of every load, and a repair of each load. No other call looks at
    /// all links.
    pub fn open(book: B, ranking: R) -> Board<B, R>
        ensures opens { Opens B.Links.graph B.Links.made B.Book.ledger R.Ranking.before
            book ranking result }
        ensures law { B.Links.made book →
            Law B.Links.graph B.Links.made B.Book.ledger B.Book.fixed R.Ranking.before result }
    {
        let size = book.size().min(MOST_LOADS);
        let loads: [usize; MOST_LOADS] = array::from_fn(|load| load);
        let mut tables = recorded(&book, size);
        repair_of(&book, &ranking).repair(&mut tables, &loads[..size]);
        Board {
            book,
            ranking,
            tables,
        }
    }
}

impl<B, R: Drop> Board<B, R> {
    /// Lets the board go and gives its book back, with the links that it has now. The matching is
    /// gone. Looks at nothing.
    pub fn into_book(self) -> B
        ensures { result ≡ self.book }
    {
        self.book
    }
}
