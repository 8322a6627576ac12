//! `pairtext` once more, so that it is run on a stream too: `args` has the word `decode`.
#![tactic(auto)]

use programs::pairtext;
use std::process::ExitCode;

fn main(rt: HostRuntime) -> ExitCode {
    pairtext::main(&rt)
}
