//! The program `pairboard`: a stream of commands played on a board.
use crate::VERSION;
use crate::ended::{Ended, finish};
use clap::Command;
use commands::LONGEST_STREAM;
use std::alloc::{AllocError, Global};
use std::convert::AsStr;
use std::env::{Env, FillError};
use std::io::Read;
use std::process::ExitCode;
use std::{env, io};
use transcript::transcript;

fn command<'a>(heap: Global) -> Command<'a> {
    Command::new(heap, "pairboard").version(VERSION).about(
        "Plays a stream of commands, and prints a reply to each and then the pairs",
    )
}

/// Runs `pairboard` with the words of its command line, of which the first is its name.
///
/// The output is the transcript of the first 65,536 bytes of the input. Where the input has so
/// many, the message says that no more was read; if there is no memory for the message, the output
/// stays, and the status is 1.
pub fn run<S: AsStr, I: Read + Drop>(
    heap: Global,
    words: &[S],
    input: I,
) -> Result<Ended, AllocError> {
    if let Err(error) = command(heap).try_get_matches_from(words) {
        return Ended::by_clap(heap, error);
    }
    let mut bytes = Vec::new(heap);
    if let Err(e) = input.take(LONGEST_STREAM as u64).read_to_end(&mut bytes) {
        return Ended::failed(heap, format_args!("the input cannot be read: {e}"));
    }
    let text = match transcript(heap, bytes.as_slice()) {
        Ok(text) => text,
        Err(failure) => return Ended::failed(heap, failure),
    };
    let mut ended = Ended::well(heap, text);
    if bytes.len() == LONGEST_STREAM
        && writeln!(
            ended.message,
            "nothing past the first {LONGEST_STREAM} bytes was read"
        )
        .is_err()
    {
        ended.message.clear();
        ended.status = 1;
    }
    Ok(ended)
}

// Where the command line has no word behind the name, the name is not read: the file may have one
// that is not UTF-8.
fn run_process(rt: &HostRuntime) -> io::Result<Ended> {
    if let Err(FillError::NotPresent) = rt.arg(1, &mut [0]) {
        return Ok(run(rt.alloc(), &["pairboard"], rt.stdin())?);
    }
    let words: Vec<String> = env::args(rt)?.collect(rt.alloc())?;
    Ok(run(rt.alloc(), words.as_slice(), rt.stdin())?)
}

/// The program: its words and input are those of the process.
pub fn main(rt: &HostRuntime) -> ExitCode {
    finish(rt, run_process(rt))
}
