//! The repair of a matching at a list of loads, carried out on the tables of a board: first each
//! load of the list is matched with a free one, then each that is still free is improved.
#![tactic(auto)]

ghost use Rattle.std.specs.Prelude.{◌≡◌};
ghost use Rattle.rules.specs.Repair.{repair};
ghost use Rattle.rules.specs.Calls.{in_order};
ghost use Rattle.repair.specs.Holds.{Changes};
ghost use Rattle.repair.specs.OnLinks.{OnLinks};

use links::Links;
use ranking::Ranking;
use tables::Tables;

mod best;
mod changes;
mod paths;

/// What a repair goes by: the links, the ranking by which loads choose, and the link limit, by
/// which the threshold is the most links that a free load may keep: the least whole number whose
/// square is at least twice the limit.
///
/// The tables are lent to each call. They are to agree with the graph of the links and to hold a
/// matching of it; then they do so afterwards, with the partners that the rules of repair give.
/// Numbers past the tables are passed over. No call refuses, and none changes the links.
#[derive(Debug, Drop)]
pub struct Repair<'a, L, R> {
    links: &'a L,
    ranking: &'a R,
    limit: usize,
}

impl<'a, L, R> Repair<'a, L, R> {
    /// A repair by these links, this ranking and this limit, which may be any number. Looks at
    /// nothing.
    pub fn new(links: &'a L, ranking: &'a R, limit: usize) -> Repair<'a, L, R>
        ensures links { result.links.now ≡ links.now }
        ensures ranking { result.ranking.now ≡ ranking.now }
        ensures limit { result.limit ≡ limit }
    {
        Repair {
            links,
            ranking,
            limit,
        }
    }
}

impl<L: Links, R: Ranking> Repair<'_, L, R> {
    /// Repairs the matching at the loads, in their order: first each that is free is matched with
    /// the first free load that it is linked to, then an augmenting path of three links is taken at
    /// each that is still free, or else, where it has more links than the threshold, a light load
    /// is displaced. Loads that have a partner or no links are passed over.
    ///
    /// For each load of the list at most 6 loads get another partner. Looks at the links of the
    /// free loads of the list, and at those of each load that becomes free or is no longer.
    pub fn repair(&self, tables: &mut Tables, loads: &[usize])
        ensures { OnLinks L.Links.made L.Links.graph R.Ranking.before self.now
            (λ before t g. Changes g (repair before t g loads.now) tables.old tables.new) }
    {
        for &load in loads {
            tables.match_free(self.links, self.ranking, load);
        }
        for &load in loads {
            self.improve(tables, load);
        }
    }

    /// Repairs the matching at two loads, the lower first, as `repair` does. Where neither is free
    /// it does nothing, and looks at two records. Else it looks at the links of the free ones of
    /// the two, and at those of each load that becomes free or is no longer.
    pub fn repair_two(&self, tables: &mut Tables, a: usize, b: usize)
        ensures { OnLinks L.Links.made L.Links.graph R.Ranking.before self.now
            (λ before t g. Changes g (repair before t g (in_order a b)) tables.old tables.new) }
    {
        if tables.is_free(a) || tables.is_free(b) {
            self.repair(tables, &[a.min(b), a.max(b)]);
        }
    }
}
