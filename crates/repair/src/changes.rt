// The second phase of a repair at one load: an augmenting path is taken, or a light load is
// displaced.
ghost use Rattle.std.specs.Prelude.{◌≡◌, nat_lt};
ghost use Rattle.graph.specs.Matching.{Free};
ghost use Rattle.rules.specs.Repair.{light_start_of, displace, improve};
ghost use Rattle.rules.specs.Threshold.{threshold};
ghost use Rattle.tables.specs.Views.{partners_of, Agrees};
ghost use Rattle.repair.specs.OnLinks.{OnLinks};
ghost use Rattle.repair.specs.Holds.{Changes, Augments, LightPartner};

use crate::Repair;
use links::Links;
use ranking::Ranking;
use tables::Tables;

// Whether so many links are more than the threshold of a limit. The threshold is the least number
// whose square is at least twice the limit, so no root has to be taken. 128 bits hold each square.
fn is_heavy(degree: usize, limit: usize) -> bool
    ensures { result ≡ nat_lt (threshold limit) degree }
{
    let below = degree.saturating_sub(1) as u128;
    degree > 0 && below * below >= 2 * limit as u128
}

// Whether x has a partner, and that partner no more links than the threshold.
fn has_light_partner(tables: &Tables, limit: usize, x: usize) -> bool
    ensures { LightPartner (threshold limit) x tables.now result }
{
    tables
        .partner(x)
        .is_some_and(|y| !is_heavy(tables.degree(y), limit))
}

impl<L: Links, R: Ranking> Repair<'_, L, R> {
    // Takes the first augmenting path of three links that begins at a, which is free. Answers
    // whether there is one.
    fn augment(&self, tables: &mut Tables, a: usize) -> bool
        ensures { OnLinks L.Links.made L.Links.graph R.Ranking.before self.now
            (λ before t g. Augments before g a result tables.old tables.new) }
    {
        let Some((_, x, y, z)) = self.find_path(tables, a) else {
            return false;
        };
        tables.exchange(self.links, a, x, y, z);
        true
    }

    // The first in a's ranking of the loads linked to a whose partner has no more links than the
    // threshold.
    fn light_start(&self, tables: &Tables, a: usize) -> Option<usize>
        ensures { OnLinks L.Links.made L.Links.graph R.Ranking.before self.now
            (λ before t g. Agrees g tables.now
            → result ≡ light_start_of before t g (partners_of tables.now) a) }
    {
        self.first_linked(a, |x| has_light_partner(tables, self.limit, x))
    }

    // a, which is free, displaces a light load if a has more links than the threshold.
    fn displace(&self, tables: &mut Tables, a: usize)
        ensures { OnLinks L.Links.made L.Links.graph R.Ranking.before self.now
            (λ before t g. Free (partners_of tables.old) a
            → Changes g (displace before t g a) tables.old tables.new) }
    {
        if is_heavy(tables.degree(a), self.limit)
            && let Some(x) = self.light_start(tables, a)
            && let Some(y) = tables.partner(x)
        {
            tables.replace(self.links, a, x, y);
            self.augment(tables, y);
        }
    }

    // Improves the matching at a, if a is free and has links: an augmenting path is taken, or else
    // a light load is displaced.
    pub(super) fn improve(&self, tables: &mut Tables, a: usize)
        ensures { OnLinks L.Links.made L.Links.graph R.Ranking.before self.now
            (λ before t g. Changes g (improve before t g a) tables.old tables.new) }
    {
        if !tables.is_free(a) || tables.degree(a) == 0 {
            return;
        }
        if !self.augment(tables, a) {
            self.displace(tables, a);
        }
    }
}
