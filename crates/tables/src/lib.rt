//! The tables of a board: the partner and the degree of each load, and which of the loads linked to
//! it are free.
#![tactic(auto)]

mod changes;
mod choices;
mod load_set;
mod questions;
/// The free loads that a load is linked to, in rising order.
pub mod free_loads;

use links::MOST_LOADS;

/// What is kept of a load: its partner, if it has one, its degree, which is how many links it has,
/// and its free degree, which is how many of them lead to free loads. On a board both are at most
/// 255.
#[derive(Clone, Copy, Debug)]
pub struct Record {
    partner: Option<u8>,
    degree: u16,
    free_degree: u16,
}

/// A set of loads below 256, in four words: word `b / 64` has the bit of load `b`, at `b mod 64`.
#[derive(Clone, Copy, Debug)]
pub struct LoadSet {
    words: [u64; 4],
}

/// A record for each of 256 loads, and for each the set of the free loads that it is linked to.
///
/// The tables do not hold the links. They follow them: `link` and `unlink` are told of each link,
/// and the calls that change partners are lent the links and go over those of the loads that
/// become free or are no longer. A question about one load then costs a look at its record or its
/// set. A number that is not below 256 is free and has no links; a call that is to change one does
/// nothing. No call refuses. Tables that are told of something else than the links stay safe: then
/// their answers say what was told, and no more.
#[derive(Debug, Drop)]
pub struct Tables {
    records: [Record; MOST_LOADS],
    // for each load, the free loads that it is linked to
    free: [LoadSet; MOST_LOADS],
}
