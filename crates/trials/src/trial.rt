// What every trial draws from, allocates by and counts in.
use crate::counts::Counts;
use crate::random::Random;
use std::alloc::Global;

#[derive(Drop)]
pub struct Trial {
    pub alloc: Global,
    pub random: Random,
    pub counts: Counts,
}

impl Trial {
    pub fn new(alloc: Global, seed: u64) -> Trial {
        Trial {
            alloc,
            random: Random::new(seed),
            counts: Counts::new(),
        }
    }
}
