// Runs of `pairtext`.
use super::check_ended;
use crate::pairtext::run;
use std::process::Abort;
use std::test::Fail;

const TEXT: &[u8] = b"link 1 2\n\tpartner 1\t# who?\n";

const STREAM: &[u8] = &[1, 0, 1, 0, 2, 5, 0, 1];

const LINES: &[u8] = b"link 1 2\npartner 1\n";

const HELP: &[u8] = b"\
Turns lines of commands into the bytes of a stream, or a stream into lines

Usage: pairtext [COMMAND]

Commands:
  encode            Reads lines and writes a stream (without a command too)
  decode, --decode  Reads a stream and writes lines

Options:
  -h, --help     Print help
  -V, --version  Print version

A line of text is one command: link A B, unlink A B, withdraw A, depart A, partner A.
A and B are loads, 0 to 65535. A comment begins with # and ends with its line.
";

// All goes well with these words, and the message is empty.
fn check_well(
    rt: &(impl Abort + AllocGlobal),
    words: &[&str],
    input: &[u8],
    output: &[u8],
) -> Result<(), Fail> {
    check_ended(rt, run(rt.alloc(), words, input), output, "", 0)
}

// There is no output, but this message.
fn check_message(
    rt: &(impl Abort + AllocGlobal),
    words: &[&str],
    input: &[u8],
    message: &str,
    status: u8,
) -> Result<(), Fail> {
    check_ended(rt, run(rt.alloc(), words, input), &[], message, status)
}

#[test]
fn both_ways(rt: HostRuntime) -> Result<(), Fail> {
    check_well(&rt, &["pairtext"], TEXT, STREAM)?;
    check_well(&rt, &["pairtext", "encode"], TEXT, STREAM)?;
    check_well(&rt, &["pairtext", "decode"], STREAM, LINES)?;
    check_well(&rt, &["pairtext", "--decode"], STREAM, LINES)
}

#[test]
fn help_and_version(rt: HostRuntime) -> Result<(), Fail> {
    check_well(&rt, &["pairtext", "--help"], TEXT, HELP)?;
    check_well(&rt, &["pairtext", "--version"], TEXT, b"pairtext 1.0.0\n")
}

const UNKNOWN_OPTION: &str = "\
error: unexpected argument '--encode' found

Usage: pairtext [COMMAND]

For more information, try '--help'.
";

const UNKNOWN_COMMAND: &str = "\
error: unrecognized subcommand 'examples/six_loads.txt'

Usage: pairtext [COMMAND]

For more information, try '--help'.
";

const ONE_WORD_MORE: &str = "\
error: unexpected argument 'six_loads.bin' found

Usage: pairtext {decode|--decode}

For more information, try '--help'.
";

#[test]
fn unknown_words(rt: HostRuntime) -> Result<(), Fail> {
    check_message(&rt, &["pairtext", "--encode"], TEXT, UNKNOWN_OPTION, 2)?;
    check_message(
        &rt,
        &["pairtext", "examples/six_loads.txt"],
        TEXT,
        UNKNOWN_COMMAND,
        2,
    )?;
    check_message(
        &rt,
        &["pairtext", "decode", "six_loads.bin"],
        STREAM,
        ONE_WORD_MORE,
        2,
    )
}

#[test]
fn bad_texts(rt: HostRuntime) -> Result<(), Fail> {
    check_message(
        &rt,
        &["pairtext"],
        b"link 0 1\nlnk 3\n",
        "line 2: \"lnk 3\" is no command (link A B, unlink A B, withdraw A, depart A, partner A)\n",
        1,
    )?;
    // 13,108 × 5 bytes are 65,540
    let mut text = Vec::new(rt.alloc());
    for _ in 0..13_108 {
        text.extend_from_slice(b"link 1 2\n")?;
    }
    check_message(
        &rt,
        &["pairtext", "encode"],
        text.as_slice(),
        "the commands come to more than 65536 bytes\n",
        1,
    )
}

#[test]
fn bad_streams(rt: HostRuntime) -> Result<(), Fail> {
    let words = &["pairtext", "decode"];
    check_message(
        &rt,
        words,
        &[1, 0, 1, 0, 2, 5, 0],
        "byte 5: the stream ends inside a command (refusal 13)\n",
        1,
    )?;
    check_message(
        &rt,
        words,
        &[1, 0, 1, 0, 2, 9],
        "byte 5: unknown command byte (refusal 12)\n",
        1,
    )?;
    check_message(
        &rt,
        words,
        &[5; 65_537],
        "the stream has more than 65536 bytes (refusal 3)\n",
        1,
    )
}
