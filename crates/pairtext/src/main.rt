//! Turns lines of commands into the bytes of a stream, and with `decode` the bytes of a stream into
//! lines.
#![tactic(auto)]

use programs::pairtext;
use std::process::ExitCode;

fn main(rt: HostRuntime) -> ExitCode {
    pairtext::main(&rt)
}
