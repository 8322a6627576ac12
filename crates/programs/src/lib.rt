//! The programs `pairtext` and `pairboard`, from their command lines to their output, messages and
//! exit statuses.
//!
//! Each program's `run` answers how it ends, for given words and a given input, so that tests can
//! call it. Its `main` gives `run` what the process was given, and writes what it answers.
#![tactic(auto)]

pub mod ended;
pub mod pairboard;
pub mod pairtext;

/// What `--version` prints behind the name of a program.
pub const VERSION: &str = "1.0.0";

#[cfg(test)]
mod tests;
