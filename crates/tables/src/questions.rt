// What can be asked of the tables, and tables of loads that are all free and have no links.
ghost use Rattle.std.specs.Prelude.{◌≡◌, ◌<◌, IfSome};
ghost use Rattle.graph.specs.Graph.{Next};
ghost use Rattle.graph.specs.Pairs.{is_free};
ghost use Rattle.tables.specs.Views.{record_of, partners_of, degree_of, free_degree_of};
ghost use Rattle.tables.specs.Views.{free_linked, matched_of, New};

use crate::{LoadSet, Record, Tables};
use links::MOST_LOADS;

// The record of a load that is free and has no links.
const BLANK: Record = Record {
    partner: None,
    degree: 0,
    free_degree: 0,
};

impl Tables {
    /// Tables of 256 loads that are all free and have no links. Writes every record and every set.
    pub fn new() -> Tables
        ensures { New result }
    {
        Tables {
            records: [BLANK; MOST_LOADS],
            free: [LoadSet { words: [0; 4] }; MOST_LOADS],
        }
    }

    // The record of a, or that of a free load without links where a is not below 256.
    fn record(&self, a: usize) -> Record
        ensures { result ≡ record_of self.now a }
    {
        self.records.get(a).copied().unwrap_or(BLANK)
    }

    /// The partner of `a`, if it has one; none where `a` is not below 256. Looks at one record.
    pub fn partner(&self, a: usize) -> Option<usize>
        ensures value { result ≡ partners_of self.now a }
        ensures bound { IfSome result (λ b. b < MOST_LOADS) }
    {
        self.record(a).partner.map(usize::from)
    }

    /// Whether `a` has no partner, as is so where `a` is not below 256. Looks at one record.
    pub fn is_free(&self, a: usize) -> bool
        ensures { result ≡ is_free (partners_of self.now) a }
    {
        self.record(a).partner.is_none()
    }

    /// The number of loads that have a partner, 0 to 256. It is counted anew at each call: looks at
    /// each of the 256 records.
    pub fn matched_count(&self) -> usize
        ensures { result ≡ matched_of self.now }
    {
        self.records
            .iter()
            .filter(|record| record.partner.is_some())
            .count()
    }

    /// The number of links of `a`; 0 where `a` is not below 256. Looks at one record.
    pub fn degree(&self, a: usize) -> usize
        ensures { result ≡ degree_of self.now a }
    {
        usize::from(self.record(a).degree)
    }

    /// The number of free loads that `a` is linked to; 0 where `a` is not below 256. Looks at one
    /// record.
    pub fn free_degree(&self, a: usize) -> usize
        ensures { result ≡ free_degree_of self.now a }
    {
        usize::from(self.record(a).free_degree)
    }

    /// The smallest free load at or above `from` that `a` is linked to, if there is one; none where
    /// `a` or `from` is not below 256. Looks at up to four words.
    pub fn next_free_linked(&self, a: usize, from: usize) -> Option<usize>
        ensures value { Next (free_linked self.now a) from result }
        ensures bound { IfSome result (λ b. b < MOST_LOADS) }
    {
        self.free.get(a)?.next(from)
    }
}
