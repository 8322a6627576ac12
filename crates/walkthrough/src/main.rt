//! Shows books, rows, a filter, rankings and audits at work, then a morning at an exchange on a
//! board, and says what each call answers.
#![tactic(auto)]

mod morning;
mod parts;
mod report;

use std::io;

fn main(rt: HostRuntime) -> io::Result<()> {
    parts::show(&rt)?;
    morning::play(&rt)
}
