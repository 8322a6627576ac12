//! The rules by which a board keeps its matching, and the theorems on them. The functions here do
//! nothing: the contract of each is a theorem, which the check therefore asks to be proved.
#![tactic(auto)]

ghost use Rattle.rules.specs.Boards.{Thresholds, FreshProper, Row, RowAugmenting, Six, Star};
ghost use Rattle.rules.specs.Boards.{Ranked, Refusals};
ghost use Rattle.rules.specs.Laws.{OpeningSound, CallsFollow, CallsKeep, RefusedUnchanged};
ghost use Rattle.rules.specs.Laws.{SoundTwoThirds, LawOfRuns};
ghost use Rattle.rules.specs.FailingRepairs.{InTurn, Closed, OnlyDisplaced};
ghost use Rattle.rules.specs.OneByOne.{LinksOneByOne};
ghost use Rattle.rules.specs.Theorems.{ThresholdLeast, FirstLeads};

/// The threshold is the least whole number whose square is at least twice the limit.
pub fn threshold_is_least()
    ensures { ThresholdLeast }
{}

/// The first load in a ranking passes the test, comes before every other that does, and is the only
/// one of which this holds.
pub fn first_leads()
    ensures { FirstLeads }
{}

/// Opening a board on a book gives a sound position: a matching without augmenting paths of one or
/// three links, in which no free load has more links than the threshold.
pub fn opening_is_sound()
    ensures { OpeningSound }
{}

/// Size, limit and barred pairs never change, and spares and room follow each link.
pub fn calls_follow()
    ensures { CallsFollow }
{}

/// Every call keeps a position sound and changes few partners, where the book has kept its links
/// within the limit.
pub fn calls_keep()
    ensures { CallsKeep }
{}

/// A withdrawal is the removal of the links one by one, each of which raises the spares.
pub fn links_one_by_one()
    ensures { LinksOneByOne }
{}

/// A refused call leaves everything as it was.
pub fn refused_unchanged()
    ensures { RefusedUnchanged }
{}

/// A sound position has at least two thirds of the pairs of every matching.
pub fn sound_two_thirds()
    ensures { SoundTwoThirds }
{}

/// The law of runs: after an opening and any calls, granted or refused, the position is sound, has
/// at least two thirds of the pairs of every matching, and the next call changes few partners.
pub fn law_of_runs()
    ensures { LawOfRuns }
{}

/// The threshold of four limits.
pub fn thresholds()
    ensures { Thresholds }
{}

/// A fresh book is proper, so that the law of runs holds of the boards opened on it.
pub fn fresh_is_proper()
    ensures { FreshProper }
{}

/// Four loads in a row, and a departure.
pub fn row_of_four()
    ensures { Row }
{}

/// Each load goes by its own ranking.
pub fn own_rankings()
    ensures { Ranked }
{}

/// The row as an augmenting path, where only its middle loads are partners.
pub fn row_is_augmenting()
    ensures { RowAugmenting }
{}

/// Six loads, and an unlinking after which both ends find other partners.
pub fn six_loads()
    ensures { Six }
{}

/// A load with more links than the threshold displaces a lighter one.
pub fn heavy_load()
    ensures { Star }
{}

/// What refused calls are told.
pub fn refusals_told()
    ensures { Refusals }
{}

/// Carrying out both phases at one end of a parted pair, and only then at the other, leaves a path
/// of three links.
pub fn ends_in_turn_fail()
    ensures { InTurn }
{}

/// A path that may end where it began leaves no matching.
pub fn closed_paths_fail()
    ensures { Closed }
{}

/// Displacing a load without augmenting from it leaves a path of three links.
pub fn only_displacing_fails()
    ensures { OnlyDisplaced }
{}
