// Runs of `pairboard`.
use super::check_ended;
use crate::pairboard::run;
use std::process::Abort;
use std::test::Fail;

const FOUR_IN_A_ROW: &[u8] = &[
    1, 0, 1, 0, 2, 1, 0, 0, 0, 1, 1, 0, 2, 0, 3, 5, 0, 1, 1, 0, 2, 0, 2, 9,
];

const FOUR_IN_A_ROW_LINES: &[u8] = b"\
ok
ok
ok
with 0
no 05 board 18
no 12 stream 23
0 1
2 3
";

const HELP: &[u8] = b"\
Plays a stream of commands, and prints a reply to each and then the pairs

Usage: pairboard

Options:
  -h, --help     Print help
  -V, --version  Print version
";

const UNKNOWN_WORD: &str = "\
error: unexpected argument 'stream' found

Usage: pairboard

For more information, try '--help'.
";

// A run with the name alone.
fn check_run(
    rt: &(impl Abort + AllocGlobal),
    input: &[u8],
    output: &[u8],
    message: &str,
) -> Result<(), Fail> {
    check_ended(
        rt,
        run(rt.alloc(), &["pairboard"], input),
        output,
        message,
        0,
    )
}

#[test]
fn four_in_a_row(rt: HostRuntime) -> Result<(), Fail> {
    check_run(&rt, FOUR_IN_A_ROW, FOUR_IN_A_ROW_LINES, "")?;
    check_run(&rt, &[], &[], "")
}

#[test]
fn words(rt: HostRuntime) -> Result<(), Fail> {
    let help = run(rt.alloc(), &["pairboard", "--help"], FOUR_IN_A_ROW);
    check_ended(&rt, help, HELP, "", 0)?;
    let version = run(rt.alloc(), &["pairboard", "--version"], FOUR_IN_A_ROW);
    check_ended(&rt, version, b"pairboard 1.0.0\n", "", 0)?;
    let unknown = run(rt.alloc(), &["pairboard", "stream"], FOUR_IN_A_ROW);
    check_ended(&rt, unknown, &[], UNKNOWN_WORD, 2)
}

// 21,845 questions have 65,535 bytes. The first byte after them is read and refused, and none after
// it is read, which the message says.
#[test]
fn longest(rt: HostRuntime) -> Result<(), Fail> {
    let mut input = Vec::new(rt.alloc());
    let mut output = Vec::new(rt.alloc());
    for _ in 0..21_845 {
        input.extend_from_slice(&[5, 0, 7])?;
        output.extend_from_slice(b"alone\n")?;
    }
    check_run(&rt, input.as_slice(), output.as_slice(), "")?;
    input.extend_from_slice(&[4, 0, 7, 1, 0, 7, 0, 8])?;
    output.extend_from_slice(b"no 13 stream 65535\n")?;
    check_run(
        &rt,
        input.as_slice(),
        output.as_slice(),
        "nothing past the first 65536 bytes was read\n",
    )
}
