//! `pairtext` once more, so that it is run on a bad text too: `status` has 1, and there is no
//! output.
#![tactic(auto)]

use programs::pairtext;
use std::process::ExitCode;

fn main(rt: HostRuntime) -> ExitCode {
    pairtext::main(&rt)
}
