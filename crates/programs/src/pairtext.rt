//! The program `pairtext`: lines of commands to the bytes of a stream, and back.
use crate::VERSION;
use crate::ended::{Ended, finish};
use clap::Command;
use std::alloc::{AllocError, Global};
use std::convert::AsStr;
use std::fmt::Display;
use std::io::Read;
use std::process::ExitCode;
use std::{env, io};
use text::conversion::{decode, encode};

// What the help says of lines, below the commands.
const LINES: &str = "\
A line of text is one command: link A B, unlink A B, withdraw A, depart A, partner A.
A and B are loads, 0 to 65535. A comment begins with # and ends with its line.";

fn command<'a>(heap: Global) -> Result<Command<'a>, AllocError> {
    let encode = Command::new(heap, "encode").about(
        "Reads lines and writes a stream (without a command too)",
    );
    let decode = Command::new(heap, "decode")
        .long_flag("decode")
        .about("Reads a stream and writes lines");
    Command::new(heap, "pairtext")
        .version(VERSION)
        .about("Turns lines of commands into the bytes of a stream, or a stream into lines")
        .after_help(LINES)
        .disable_help_subcommand(true)
        .subcommand(encode)?
        .subcommand(decode)
}

fn ended<E: Display + Drop>(heap: Global, answer: Result<Vec<u8>, E>) -> Result<Ended, AllocError> {
    match answer {
        Ok(bytes) => Ok(Ended::well(heap, bytes)),
        Err(reason) => Ended::failed(heap, reason),
    }
}

/// Runs `pairtext` with the words of its command line, of which the first is its name.
///
/// Without a further word, or with `encode`, the input is text, and the output the stream of its
/// commands. With `decode` it is the other way round. Where the input is bad, there is no output.
pub fn run<S: AsStr, I: Read + Drop>(
    heap: Global,
    words: &[S],
    mut input: I,
) -> Result<Ended, AllocError> {
    let matches = match command(heap)?.try_get_matches_from(words) {
        Ok(matches) => matches,
        Err(error) => return Ended::by_clap(heap, error),
    };
    let mut bytes = Vec::new(heap);
    if let Err(e) = input.read_to_end(&mut bytes) {
        return Ended::failed(heap, format_args!("the input cannot be read: {e}"));
    }
    if matches.subcommand_name() == Some("decode") {
        let text = decode(heap, bytes.as_slice());
        return ended(heap, text.map(String::into_bytes));
    }
    ended(heap, encode(heap, bytes.as_slice()))
}

fn run_process(rt: &HostRuntime) -> io::Result<Ended> {
    let words: Vec<String> = env::args(rt)?.collect(rt.alloc())?;
    Ok(run(rt.alloc(), words.as_slice(), rt.stdin())?)
}

/// The program: its words and input are those of the process.
pub fn main(rt: &HostRuntime) -> ExitCode {
    finish(rt, run_process(rt))
}
