//! Plays random boards, and holds each answer and all that can be asked after it against a second
//! implementation of the rules.
#![tactic(auto)]

use anyhow::Result;
use trial::Trial;

mod audits;
mod boards;
mod comparing;
mod counts;
mod makings;
mod random;
mod scripts;
mod setting;
mod streams;
mod trial;

// What every number of the trials is drawn from.
const SEED: u64 = 2_027;

fn main(rt: HostRuntime) -> Result<()> {
    let mut trial = Trial::new(rt.alloc(), SEED);
    trial.six_loads()?;
    trial.random_boards(200, 1, 16)?;
    trial.random_boards(2, 62, 66)?;
    trial.random_boards(1, 127, 130)?;
    trial.random_boards(1, 255, 256)?;
    trial.hubs(150)?;
    trial.makings(200)?;
    trial.lists(300)?;
    trial.streams(400)?;
    trial.counts.report(&rt)
}
