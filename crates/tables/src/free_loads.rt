//! The free loads that a load is linked to, in rising order.
ghost use Rattle.std.specs.Prelude.{◌≡◌};
ghost use Rattle.tables.specs.Views.{free_linked};
ghost use Rattle.tables.specs.FreeLoads.{OverFree};

use crate::Tables;
use links::MOST_LOADS;
use links::members::{MembersInOrder, NextMember};

/// The free loads that a load is linked to, as a set that can be asked for its next member.
#[derive(Clone, Copy, Debug)]
pub struct FreeLinked<'a> {
    tables: &'a Tables,
    load: usize,
}

impl NextMember for FreeLinked<'_> {
    ghost member = { λ s. free_linked s.tables.now s.load };

    ghost reliable = { λ _. Unit {0} };

    fn next_from(&self, from: usize) -> Option<usize> {
        self.tables.next_free_linked(self.load, from)
    }
}

impl Tables {
    /// The free loads that `a` is linked to, in rising order; none where `a` is not below 256.
    /// Each step looks at up to four words.
    pub fn free_loads(&self, a: usize) -> MembersInOrder<FreeLinked<'_>>
        ensures over { OverFree self.now a result }
        ensures begins { result.from ≡ 0 }
    {
        MembersInOrder::new(
            FreeLinked {
                tables: self,
                load: a,
            },
            0,
            MOST_LOADS,
        )
    }
}
