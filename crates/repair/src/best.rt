// The best, in a load's ranking, of the loads that an iterator gives.
ghost use Rattle.repair.specs.Best.{BestOf, FirstLinked};
ghost use Rattle.repair.specs.OnLinks.{OnLinks};

use crate::Repair;
use links::members::{MembersInOrder, NextMember, linked_loads};
use links::{Links, MOST_LOADS};
use ranking::Ranking;

// The first in a's ranking of the members that pass the test.
pub(super) fn best_of<R: Ranking, S: NextMember + Drop, F: Fn(usize) -> bool>(
    ranking: &R,
    a: usize,
    members: MembersInOrder<S>,
    test: F,
) -> Option<usize>
    requires { F.IsAlwaysCallable test }
    ensures { BestOf S.NextMember.reliable S.NextMember.member (F.post test)
        (R.Ranking.before ranking.now a) members result }
{
    let mut best = None;
    for x in members {
        if test(x) {
            best = Some(ranking.earlier(a, best, x));
        }
    }
    best
}

impl<L: Links, R: Ranking> Repair<'_, L, R> {
    // The first in a's ranking of the loads linked to a that pass the test.
    pub(super) fn first_linked<F: Fn(usize) -> bool>(&self, a: usize, test: F) -> Option<usize>
        requires { F.IsAlwaysCallable test }
        ensures { OnLinks L.Links.made L.Links.graph R.Ranking.before self.now
            (λ before t g. FirstLinked before g a (F.post test) result) }
    {
        best_of(
            self.ranking,
            a,
            linked_loads(self.links, a, MOST_LOADS),
            test,
        )
    }
}
