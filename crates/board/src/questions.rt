// What can be asked of a board.
ghost use Rattle.std.specs.Prelude.{◌≡◌, ◌<◌, IfOk, IfSome};
ghost use Rattle.rules.specs.Calls.{ask_partner, ask_free_links, ask_next_free, ask_pairs};
ghost use Rattle.board.specs.Boards.{Steps};

use crate::Board;
use links::{Book, MOST_LOADS, Refused};
use ranking::Ranking;

impl<B: Book, R: Ranking> Board<B, R> {
    /// The partner of a load, if it has one. Refused with 4 (board) where `a` is not a load. Looks
    /// at one record of the tables, and changes nothing.
    pub fn partner(&self, a: usize) -> Result<Option<usize>, Refused>
        ensures answers { Steps B.Links.graph B.Links.made B.Book.ledger B.Book.fixed
            R.Ranking.before self.now (ask_partner a) result self.now }
        ensures bound { IfOk result (λ o. IfSome o (λ b. b < MOST_LOADS)) }
    {
        self.check_load(a)?;
        Ok(self.tables.partner(a))
    }

    /// How many free loads a load is linked to, 0 to 255. Refused with 4 (board) where `a` is not a
    /// load. Looks at one record of the tables, and changes nothing.
    pub fn free_links(&self, a: usize) -> Result<usize, Refused>
        ensures { Steps B.Links.graph B.Links.made B.Book.ledger B.Book.fixed R.Ranking.before
            self.now (ask_free_links a) result self.now }
    {
        self.check_load(a)?;
        Ok(self.tables.free_degree(a))
    }

    /// The smallest free load at or above `from` that a load is linked to, if there is one. `from`
    /// may be any number. Refused with 4 (board) where `a` is not a load. Looks at up to four words
    /// of the tables, and changes nothing.
    pub fn next_free_link(&self, a: usize, from: usize) -> Result<Option<usize>, Refused>
        ensures { Steps B.Links.graph B.Links.made B.Book.ledger B.Book.fixed R.Ranking.before
            self.now (ask_next_free a from) result self.now }
    {
        self.check_load(a)?;
        Ok(self.tables.next_free_linked(a, from))
    }

    /// The book, whose links, spares and room can be asked for. Looks at nothing.
    pub fn book(&self) -> &B
        ensures { result.now ≡ self.now.book }
    {
        &self.book
    }

    /// The number of pairs, 0 to 128. Never refused. Looks at all 256 records of the tables, and
    /// changes nothing.
    pub fn pair_count(&self) -> usize
        ensures { Steps B.Links.graph B.Links.made B.Book.ledger B.Book.fixed R.Ranking.before
            self.now ask_pairs (Ok result) self.now }
    {
        self.tables.matched_count() / 2
    }
}
