// How a load finds a free load among those that it is linked to.
ghost use Rattle.std.specs.Prelude.{◌≡◌, false};
ghost use Rattle.graph.specs.Pairs.{is_free};
ghost use Rattle.tables.specs.Views.{partners_of, Agrees};
ghost use Rattle.tables.specs.Changes.{OfLinks};
ghost use Rattle.tables.specs.Choices.{FirstFree, Matched};

use crate::Tables;
use links::Links;
use ranking::Ranking;

impl Tables {
    /// The first in the ranking of `a` of the free loads that `a` is linked to, if there is one;
    /// none where `a` is not below 256. Looks at up to four words for each of them, and compares
    /// it once.
    pub fn first_free<R: Ranking>(&self, ranking: &R, a: usize) -> Option<usize>
        ensures { FirstFree (R.Ranking.before ranking.now) a self.now result }
    {
        let mut best = None;
        for x in self.free_loads(a) {
            best = Some(ranking.earlier(a, best, x));
        }
        best
    }

    /// Pairs `a`, if it is free, with the first in its ranking of the free loads that it is linked
    /// to. Does nothing where `a` has a partner, is linked to no free load, or is not below 256.
    /// Looks at the free loads linked to `a` as `first_free` does, and where there are any at the
    /// links of the two new partners.
    pub fn match_free<L: Links, R: Ranking>(&mut self, links: &L, ranking: &R, a: usize)
        ensures matched { OfLinks (L.Links.made links.now) (L.Links.graph links.now)
            (λ g. Agrees g self.old
            → Matched (R.Ranking.before ranking.now) g a self.old self.new) }
        ensures kept { is_free (partners_of self.old) a ≡ false → self.new ≡ self.old }
    {
        if self.is_free(a)
            && self.free_degree(a) > 0
            && let Some(b) = self.first_free(ranking, a)
        {
            self.pair(links, a, b);
        }
    }
}
