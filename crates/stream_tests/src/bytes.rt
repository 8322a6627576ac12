// Commands as bytes, written and read.
use commands::{Command, Decoded, read};
use links::{Layer, Refusal, Refused};
use std::process::Abort;

fn check_read(rt: &impl Abort, stream: &[u8], place: usize, command: Command, next: usize) {
    assert_eq!(rt; read(stream, place), Ok(Some(Decoded { command, next })));
}

fn check_none(rt: &impl Abort, stream: &[u8], place: usize) {
    assert_eq!(rt; read(stream, place), Ok(None));
}

fn check_refused(rt: &impl Abort, stream: &[u8], place: usize, refusal: Refusal) {
    assert_eq!(rt; read(stream, place), Err(refusal.by(Layer::Stream)));
}

// A command is written as these bytes, and read back where they begin a stream and where they end
// it.
fn both_ways(rt: &impl Abort, command: Command, bytes: &[u8]) {
    let n = bytes.len();
    assert!(rt; n <= 8);
    let mut first = [9u8; 8];
    assert_eq!(rt; command.write(&mut first), Ok(n));
    assert_eq!(rt; &first[..n], bytes);
    check_read(rt, &first, 0, command, n);
    let mut last = [9u8; 8];
    let stream = &mut last[..];
    assert_eq!(rt; command.write(&mut stream[8 - n..]), Ok(n));
    check_read(rt, stream, 8 - n, command, 8);
}

// Each command with the loads at which a byte is full or begins.
#[test]
fn loads(rt: HostRuntime) {
    for (load, high, low) in [(0, 0, 0), (255, 0, 255), (256, 1, 0), (65_535, 255, 255)] {
        both_ways(&rt, Command::Link(load, 258), &[1, high, low, 1, 2]);
        both_ways(&rt, Command::Unlink(258, load), &[2, 1, 2, high, low]);
        both_ways(&rt, Command::Withdraw(load), &[3, high, low]);
        both_ways(&rt, Command::Depart(load), &[4, high, low]);
        both_ways(&rt, Command::Partner(load), &[5, high, low]);
    }
}

// Writes a command to an output of sevens, and compares what is answered and what the output then
// holds.
fn check_write<const N: usize>(
    rt: &impl Abort,
    command: Command,
    answer: Result<usize, Refused>,
    expected: [u8; N],
) {
    let mut out = [7u8; N];
    assert_eq!(rt; command.write(&mut out), answer);
    assert_eq!(rt; out, expected);
}

// An output one byte short stays as it was, one that is just long enough is filled, and bytes
// beyond the command stay.
#[test]
fn outputs(rt: HostRuntime) {
    let refused = Err(Refusal::OutputTooShort.by(Layer::Stream));
    check_write(&rt, Command::Link(1, 2), refused, [7; 4]);
    check_write(&rt, Command::Link(1, 2), Ok(5), [1, 0, 1, 0, 2]);
    check_write(&rt, Command::Withdraw(8), refused, [7; 2]);
    check_write(&rt, Command::Withdraw(8), Ok(3), [3, 0, 8]);
    check_write(&rt, Command::Partner(9), Ok(3), [5, 0, 9, 7, 7]);
}

// Unknown command bytes, and each command without its last byte.
const DAMAGED: [(&[u8], usize, Refusal); 8] = [
    (&[0, 0, 1, 0, 2], 0, Refusal::UnknownCommand),
    (&[4, 0, 1, 6], 3, Refusal::UnknownCommand),
    (&[255, 0, 1], 0, Refusal::UnknownCommand),
    (&[1, 0, 1, 0], 0, Refusal::CutShort),
    (&[4, 0, 1, 2, 0, 1, 0], 3, Refusal::CutShort),
    (&[3, 0], 0, Refusal::CutShort),
    (&[4, 0], 0, Refusal::CutShort),
    (&[4, 0, 1, 5, 0], 3, Refusal::CutShort),
];

#[test]
fn damaged(rt: HostRuntime) {
    for (stream, place, refusal) in DAMAGED {
        check_refused(&rt, stream, place, refusal);
    }
}

// Links 1 and 2, asks for the partner of 1, withdraws 256.
const IN_A_ROW: [u8; 11] = [1, 0, 1, 0, 2, 5, 0, 1, 3, 1, 0];

#[test]
fn in_a_row(rt: HostRuntime) {
    check_read(&rt, &IN_A_ROW, 0, Command::Link(1, 2), 5);
    check_read(&rt, &IN_A_ROW, 5, Command::Partner(1), 8);
    check_read(&rt, &IN_A_ROW, 8, Command::Withdraw(256), 11);
    for place in [11, 12, usize::MAX] {
        check_none(&rt, &IN_A_ROW, place);
    }
}

// The last bytes of a stream of fives: a question for load 5 × 256 + 5, one that is cut short, and
// the end.
fn check_fives(rt: &impl Abort, stream: &[u8]) {
    let n = stream.len();
    assert!(rt; 3 <= n);
    check_read(rt, stream, n - 3, Command::Partner(1285), n);
    check_refused(rt, stream, n - 2, Refusal::CutShort);
    check_none(rt, stream, n);
}

// Streams of each length at which something begins or ends.
#[test]
fn lengths(rt: HostRuntime) {
    let fives = [5u8; 65_537];
    check_none(&rt, &[], 0);
    check_refused(&rt, &[5], 0, Refusal::CutShort);
    check_fives(&rt, &fives[..65_535]);
    check_fives(&rt, &fives[..65_536]);
    check_refused(&rt, &fives, 0, Refusal::WrongLength);
    check_refused(&rt, &fives, 65_537, Refusal::WrongLength);
}
