//! Graphs, matchings and augmenting paths: the definitions that the crates above use. The functions
//! do nothing: the contract of each is a theorem, so the check asks for a proof of it.
//!
//! What shortest augmenting paths say about the size of a matching: Hopcroft and Karp, "An n^{5/2}
//! algorithm for maximum matchings in bipartite graphs", SIAM J. Comput. 2, 1973.
#![tactic(auto)]

ghost use Rattle.graph.specs.Approximation.{Handshake, PairsAtLower, ShortPathsOfMatchings};
ghost use Rattle.graph.specs.Approximation.{ApproximationRatio, TwoThirds};
ghost use Rattle.graph.specs.Changes.{LinksCounted};
ghost use Rattle.graph.specs.Theorems.{PathsOfOne, PathsOfThree, PathsAreOdd};

/// The most loads that a graph has.
pub const MOST_LOADS: usize = 256;

/// The augmenting paths of one link are the links between two free loads.
pub fn paths_of_one()
    ensures { PathsOfOne }
{}

/// The augmenting paths of three links lead from a free load over a pair to another free load.
pub fn paths_of_three()
    ensures { PathsOfThree }
{}

/// An augmenting path has an odd number of links.
pub fn paths_are_odd()
    ensures { PathsAreOdd }
{}

/// The degrees add up to twice the links.
pub fn handshake()
    ensures { Handshake }
{}

/// The pairs, counted at their lower loads, are half the loads that have a partner.
pub fn pairs_at_lower()
    ensures { PairsAtLower }
{}

/// When there is no augmenting path of one or of three links, in terms of the loads on it.
pub fn short_paths()
    ensures { ShortPathsOfMatchings }
{}

/// For every k from 1 on, a matching without augmenting paths of up to 2k - 1 links has at least
/// k / (k + 1) of the pairs of every matching.
pub fn approximation_ratio()
    ensures { ApproximationRatio }
{}

/// A matching without augmenting paths of one or three links has at least two thirds of the pairs
/// of every matching: the approximation ratio at k = 2.
pub fn two_thirds()
    ensures { TwoThirds }
{}

/// How the number of links follows the changes of a graph.
pub fn links_counted()
    ensures { LinksCounted }
{}
