// The calls that change a board.
ghost use Rattle.std.specs.Prelude.{◌≡◌};
ghost use Rattle.rules.specs.Calls.{link, unlink, withdraw, depart};
ghost use Rattle.tables.specs.Changes.{OfLinks};
ghost use Rattle.board.specs.Boards.{Steps};
ghost use Rattle.board.specs.Leaving.{RemovesLinks};
ghost use Rattle.board.specs.Parting.{PartsPartners};

use crate::{Board, repair_of};
use links::{Book, Layer, Links, MOST_LOADS, Refusal, Refused, check_two};
use ranking::Ranking;
use tables::Tables;

// If a and b are partners, they part.
fn part_partners<L: Links>(tables: &mut Tables, links: &L, a: usize, b: usize)
    ensures { OfLinks (L.Links.made links.now) (L.Links.graph links.now)
        (λ g. PartsPartners g a b tables.old tables.new) }
{
    if tables.partner(a) == Some(b) {
        tables.part(links, a, b);
    }
}

// Removes all links of a load, whose partner stays as it is. It ends for every value of the book.
// The book changes at each link, so the next one is asked of the book as it is then.
fn remove_links<B: Book>(book: &mut B, tables: &mut Tables, a: usize)
    ensures removes { RemovesLinks B.Links.graph B.Links.made B.Book.ledger
        a book.old tables.old book.new tables.new }
    ensures stays { B.Book.fixed book.new ≡ B.Book.fixed book.old }
{
    let mut from = 0;
    while let Some(b) = book.next_linked(a, from) {
        if b < from || b >= MOST_LOADS {
            return;
        }
        let Ok(()) = book.remove(a, b) else {
            return;
        };
        tables.unlink(a, b);
        from = b + 1;
    }
}

impl<B: Book, R: Ranking> Board<B, R> {
    /// Links `a` and `b`, and repairs the matching at both, the lower first.
    ///
    /// The first of these that holds refuses the call, and the board stays as it was: one of the
    /// two is not a load (4, board), they are the same (5, board), the pair is barred (8, book),
    /// they are linked already (6, book), either has no spare left (9, book), the book has no room
    /// left (10, book).
    ///
    /// At most 6 loads have another partner afterwards. Where both had one before, none has, and
    /// the call costs no more than the linking. Else it looks at the links of the free ones of the
    /// two, and at those of each load that becomes free or is no longer.
    pub fn link(&mut self, a: usize, b: usize) -> Result<(), Refused>
        ensures { Steps B.Links.graph B.Links.made B.Book.ledger B.Book.fixed R.Ranking.before
            self.old (link a b) result self.new }
    {
        check_two(self.book.size(), a, b, Layer::Board)?;
        self.book.add(a, b)?;
        self.tables.link(a, b);
        repair_of(&self.book, &self.ranking).repair_two(&mut self.tables, a, b);
        Ok(())
    }

    /// Unlinks `a` and `b`, which part if they are partners, and repairs the matching at both, the
    /// lower first.
    ///
    /// The first of these that holds refuses the call, and the board stays as it was: one of the
    /// two is not a load (4, board), they are the same (5, board), they are not linked (7, book).
    ///
    /// At most 12 loads have another partner afterwards. Where both keep a partner, none has, and
    /// the call costs no more than the unlinking. Else it looks at the links of the free ones of
    /// the two, and at those of each load that becomes free or is no longer.
    pub fn unlink(&mut self, a: usize, b: usize) -> Result<(), Refused>
        ensures { Steps B.Links.graph B.Links.made B.Book.ledger B.Book.fixed R.Ranking.before
            self.old (unlink a b) result self.new }
    {
        check_two(self.book.size(), a, b, Layer::Board)?;
        self.book.remove(a, b)?;
        self.tables.unlink(a, b);
        part_partners(&mut self.tables, &self.book, a, b);
        repair_of(&self.book, &self.ranking).repair_two(&mut self.tables, a, b);
        Ok(())
    }

    /// Withdraws a load: all its links are removed, it parts from its partner if it has one, and
    /// the matching is repaired at that partner. The number stays a load, without links.
    ///
    /// Refused with 4 (board) where `a` is not a load. The board stays as it was then.
    ///
    /// At most 7 loads have another partner afterwards; without a partner before, none has. Looks
    /// at the links of `a`, and then at those of its partner and of each load that becomes free or
    /// is no longer.
    pub fn withdraw(&mut self, a: usize) -> Result<(), Refused>
        ensures { Steps B.Links.graph B.Links.made B.Book.ledger B.Book.fixed R.Ranking.before
            self.old (withdraw a) result self.new }
    {
        self.check_load(a)?;
        let partner = self.tables.partner(a);
        remove_links(&mut self.book, &mut self.tables, a);
        if let Some(b) = partner {
            self.tables.part(&self.book, a, b);
            repair_of(&self.book, &self.ranking).repair(&mut self.tables, &[b]);
        }
        Ok(())
    }

    /// A load departs with its partner: all links of both are removed, they part, and nothing is
    /// repaired, since no other load has lost its partner. Both numbers stay loads, without links.
    ///
    /// Refused with 4 (board) where `a` is not a load, then with 11 (board) where it has no
    /// partner. The board stays as it was then.
    ///
    /// Those two have no partner afterwards, and all others the one that they had. Looks at the
    /// links of the two.
    pub fn depart(&mut self, a: usize) -> Result<(), Refused>
        ensures { Steps B.Links.graph B.Links.made B.Book.ledger B.Book.fixed R.Ranking.before
            self.old (depart a) result self.new }
    {
        self.check_load(a)?;
        let Some(b) = self.tables.partner(a) else {
            return Err(Refusal::NoPartner.by(Layer::Board));
        };
        remove_links(&mut self.book, &mut self.tables, a);
        remove_links(&mut self.book, &mut self.tables, b);
        self.tables.part(&self.book, a, b);
        Ok(())
    }
}
