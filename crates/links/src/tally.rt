// The tally of a book.
ghost use Rattle.std.specs.Prelude.{◌≡◌, ◌+◌, ◌-◌, ◌<◌, ◌≤◌};

/// How many links a book has, and how many it may have.
#[derive(Clone, Copy, PartialEq, Eq, Debug)]
pub struct Tally {
    /// The most links that there may be.
    pub limit: usize,
    /// The links that there are.
    pub count: usize,
}

impl Tally {
    /// The tally of a book without links.
    pub fn new(limit: usize) -> Tally
        ensures { result ≡ record { limit = limit; count = 0 } }
    {
        Tally { limit, count: 0 }
    }

    /// How many more links there may be; 0 where there are more than the limit.
    pub fn room(&self) -> usize
        ensures { result ≡ self.now.limit - self.now.count }
    {
        self.limit.saturating_sub(self.count)
    }

    /// Counts a link more; at the limit the count stays.
    pub fn add_one(&mut self)
        ensures counted { self.old.count < self.old.limit →
            self.new ≡ record { limit = self.old.limit; count = self.old.count + 1 } }
        ensures full { self.old.limit ≤ self.old.count → self.new ≡ self.old }
        ensures limit { self.new.limit ≡ self.old.limit }
    {
        if self.count < self.limit {
            self.count += 1;
        }
    }

    /// Counts a link less; at 0 the count stays.
    pub fn remove_one(&mut self)
        ensures { self.new ≡ record { limit = self.old.limit; count = self.old.count - 1 } }
    {
        self.count = self.count.saturating_sub(1);
    }
}
