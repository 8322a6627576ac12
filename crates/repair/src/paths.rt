// The search for an augmenting path of three links.
ghost use Rattle.std.specs.Prelude.{◌≡◌};
ghost use Rattle.rules.specs.Repair.{path_start_of};
ghost use Rattle.tables.specs.Views.{partners_of, free_linked, Agrees};
ghost use Rattle.repair.specs.OnLinks.{OnLinks};
ghost use Rattle.repair.specs.Paths.{FirstOther, HasOther, GoesOver, PathIs};

use crate::Repair;
use crate::best::best_of;
use links::Links;
use ranking::Ranking;
use tables::Tables;

// Whether z is one of the free loads that y is linked to.
fn is_free_linked(tables: &Tables, y: usize, z: usize) -> bool
    ensures { result ≡ free_linked tables.now y z }
{
    tables.next_free_linked(y, z) == Some(z)
}

// Whether y is linked to a free load other than `besides`.
fn has_other_free(tables: &Tables, y: usize, besides: usize) -> bool
    ensures { HasOther y besides tables.now result }
{
    if is_free_linked(tables, y, besides) {
        tables.free_degree(y) > 1
    } else {
        tables.free_degree(y) > 0
    }
}

// Whether an augmenting path of three links that begins at a goes over x, which a is linked to.
fn goes_over(tables: &Tables, a: usize, x: usize) -> bool
    ensures { GoesOver a x tables.now result }
{
    tables
        .partner(x)
        .is_some_and(|y| has_other_free(tables, y, a))
}

impl<L: Links, R: Ranking> Repair<'_, L, R> {
    // The first in y's ranking of the free loads that y is linked to, other than `besides`.
    fn first_other_free(&self, tables: &Tables, y: usize, besides: usize) -> Option<usize>
        ensures { FirstOther (R.Ranking.before self.now.ranking.now) y besides tables.now result }
    {
        best_of(self.ranking, y, tables.free_loads(y), |z| z != besides)
    }

    // The first in a's ranking with which an augmenting path of three links goes on from a.
    fn path_start(&self, tables: &Tables, a: usize) -> Option<usize>
        ensures { OnLinks L.Links.made L.Links.graph R.Ranking.before self.now
            (λ before t g. Agrees g tables.now
            → result ≡ path_start_of before g (partners_of tables.now) a) }
    {
        self.first_linked(a, |x| goes_over(tables, a, x))
    }

    // The first augmenting path of three links that begins at a: its four loads in their order.
    pub(super) fn find_path(
        &self,
        tables: &Tables,
        a: usize,
    ) -> Option<(usize, usize, usize, usize)>
        ensures { OnLinks L.Links.made L.Links.graph R.Ranking.before self.now
            (λ before t g. Agrees g tables.now
            → PathIs before g (partners_of tables.now) a result) }
    {
        let x = self.path_start(tables, a)?;
        let y = tables.partner(x)?;
        let z = self.first_other_free(tables, y, a)?;
        Some((a, x, y, z))
    }
}
