//! Plays a stream of commands from standard input on a board, and prints the answer to each and
//! then the pairs.
#![tactic(auto)]

use programs::pairboard;
use std::process::ExitCode;

fn main(rt: HostRuntime) -> ExitCode {
    pairboard::main(&rt)
}
