// Lines of text, turned into the bytes of commands and back.
use commands::Command;
use links::{Layer, Refusal};
use std::alloc::{AllocError, Global};
use std::fmt::Display;
use std::process::Abort;
use std::test::Fail;
use text::conversion::{BadStream, BadText, decode, encode};
use text::{format_line, parse_line};

fn check_printed(
    rt: &(impl Abort + AllocGlobal),
    value: impl Display + Drop,
    words: &str,
) -> Result<(), Fail> {
    let printed = format!(in rt.alloc(); "{value}")?;
    assert_eq!(rt; printed.as_str(), words);
    Ok(())
}

fn check_encode(rt: &(impl Abort + AllocGlobal), text: &[u8], bytes: &[u8]) -> Result<(), Fail> {
    let stream = encode(rt.alloc(), text)?;
    assert_eq!(rt; stream.as_slice(), bytes, "of {text:?}");
    Ok(())
}

fn check_decode(rt: &(impl Abort + AllocGlobal), bytes: &[u8], text: &str) -> Result<(), Fail> {
    let decoded = decode(rt.alloc(), bytes)?;
    assert_eq!(rt; decoded.as_str(), text);
    Ok(())
}

fn check_bad_text(rt: &(impl Abort + AllocGlobal), text: &[u8], reason: BadText<'_>) {
    assert_eq!(rt; encode(rt.alloc(), text).err(), Some(reason), "of {text:?}");
}

fn check_bad_stream(rt: &(impl Abort + AllocGlobal), bytes: &[u8], refusal: Refusal, place: usize) {
    let reason = BadStream::At(refusal.by(Layer::Stream), place);
    assert_eq!(rt; decode(rt.alloc(), bytes).err(), Some(reason));
}

// Each command, its line and its bytes, with the loads at which a byte is full or begins.
const COMMANDS: [(Command, &str, &[u8]); 20] = [
    (Command::Link(0, 255), "link 0 255", &[1, 0, 0, 0, 255]),
    (Command::Link(255, 0), "link 255 0", &[1, 0, 255, 0, 0]),
    (
        Command::Link(256, 65_535),
        "link 256 65535",
        &[1, 1, 0, 255, 255],
    ),
    (
        Command::Link(65_535, 256),
        "link 65535 256",
        &[1, 255, 255, 1, 0],
    ),
    (Command::Unlink(0, 255), "unlink 0 255", &[2, 0, 0, 0, 255]),
    (Command::Unlink(255, 0), "unlink 255 0", &[2, 0, 255, 0, 0]),
    (
        Command::Unlink(256, 65_535),
        "unlink 256 65535",
        &[2, 1, 0, 255, 255],
    ),
    (
        Command::Unlink(65_535, 256),
        "unlink 65535 256",
        &[2, 255, 255, 1, 0],
    ),
    (Command::Withdraw(0), "withdraw 0", &[3, 0, 0]),
    (Command::Withdraw(255), "withdraw 255", &[3, 0, 255]),
    (Command::Withdraw(256), "withdraw 256", &[3, 1, 0]),
    (Command::Withdraw(65_535), "withdraw 65535", &[3, 255, 255]),
    (Command::Depart(0), "depart 0", &[4, 0, 0]),
    (Command::Depart(255), "depart 255", &[4, 0, 255]),
    (Command::Depart(256), "depart 256", &[4, 1, 0]),
    (Command::Depart(65_535), "depart 65535", &[4, 255, 255]),
    (Command::Partner(0), "partner 0", &[5, 0, 0]),
    (Command::Partner(255), "partner 255", &[5, 0, 255]),
    (Command::Partner(256), "partner 256", &[5, 1, 0]),
    (Command::Partner(65_535), "partner 65535", &[5, 255, 255]),
];

fn push_full_line(text: &mut String, line: &str) -> Result<(), AllocError> {
    text.push_str(line)?;
    text.push_str("\n")
}

fn check_both_ways(
    rt: &(impl Abort + AllocGlobal),
    command: Command,
    line: &str,
    bytes: &[u8],
) -> Result<(), Fail> {
    check_printed(rt, command, line)?;
    let written = format_line(rt.alloc(), command)?;
    assert_eq!(rt; written.as_str(), line);
    assert_eq!(rt; parse_line(line.as_bytes()), Ok(Some(command)));
    check_encode(rt, line.as_bytes(), bytes)?;
    let mut full_line = String::new(rt.alloc());
    push_full_line(&mut full_line, line)?;
    check_decode(rt, bytes, full_line.as_str())
}

#[test]
fn each_command(rt: HostRuntime) -> Result<(), Fail> {
    for (command, line, bytes) in COMMANDS {
        check_both_ways(&rt, command, line, bytes)?;
    }
    Ok(())
}

// Texts without a command.
const NO_COMMANDS: [&[u8]; 17] = [
    b"",
    b"\n",
    b"\n\n\n",
    b" ",
    b"   \n  ",
    b"\r",
    b"\r\n\r\n",
    b"  \r\n",
    b"#",
    b"# who is with 1?\n",
    b"#link 1 2",
    b"   # link 1 2\n",
    b"# link 1 2\r\n",
    b"#\t\xff\x00",
    b"\t",
    b" \t \r\n",
    b"\t# who?",
];

#[test]
fn no_commands(rt: HostRuntime) -> Result<(), Fail> {
    for text in NO_COMMANDS {
        check_encode(&rt, text, &[])?;
    }
    check_decode(&rt, &[], "")
}

// Texts with a command or two, and their bytes.
const WITH_COMMANDS: [(&[u8], &[u8]); 27] = [
    (b"depart 4", &[4, 0, 4]),
    (b"depart 4\n", &[4, 0, 4]),
    (b"depart 4\r", &[4, 0, 4]),
    (b"depart 4 \r\n", &[4, 0, 4]),
    (b"   depart 4", &[4, 0, 4]),
    (b"depart 4   ", &[4, 0, 4]),
    (b"  link   1    2  \n", &[1, 0, 1, 0, 2]),
    (b"depart 04", &[4, 0, 4]),
    (b"withdraw 000000", &[3, 0, 0]),
    (b"partner 0000000000065535", &[5, 255, 255]),
    (b"unlink 0256 00255", &[2, 1, 0, 0, 255]),
    (b"depart 4\n\n", &[4, 0, 4]),
    (b"\n\r\n  \ndepart 4", &[4, 0, 4]),
    (b"\tlink 1 2", &[1, 0, 1, 0, 2]),
    (b"link\t1 2", &[1, 0, 1, 0, 2]),
    (b"link 1\t2", &[1, 0, 1, 0, 2]),
    (b"link 1 2\t", &[1, 0, 1, 0, 2]),
    (b" \t link\t \t1\t\t2 \t\r\n", &[1, 0, 1, 0, 2]),
    (b"partner 1 # who?", &[5, 0, 1]),
    (b"link 1 2 # why?", &[1, 0, 1, 0, 2]),
    (b"link 1 2\t#why?\r\n", &[1, 0, 1, 0, 2]),
    (b"link 1 2 # 3", &[1, 0, 1, 0, 2]),
    (b"depart 4 #", &[4, 0, 4]),
    (b"depart 4 # \xff\x00 # \tlink", &[4, 0, 4]),
    (b"link 1 2\npartner 1", &[1, 0, 1, 0, 2, 5, 0, 1]),
    (b"link 1 2\r\n\r\npartner 1\r\n", &[1, 0, 1, 0, 2, 5, 0, 1]),
    (
        b"link 1 2\n# who?\n  partner 1\n",
        &[1, 0, 1, 0, 2, 5, 0, 1],
    ),
];

#[test]
fn with_commands(rt: HostRuntime) -> Result<(), Fail> {
    for (text, bytes) in WITH_COMMANDS {
        check_encode(&rt, text, bytes)?;
    }
    check_decode(&rt, &[1, 0, 1, 0, 2, 5, 0, 1], "link 1 2\npartner 1\n")
}

// Lines of which none is a command or a comment.
const BAD_LINES: [&[u8]; 40] = [
    b"swap 1 2",
    b"links 1 2",
    b"lin 1 2",
    b"link1 2",
    b"1 2",
    b"Link 1 2",
    b"DEPART 4",
    b"lnk\t3",
    b"link\x0b1 2",
    b"link\xc2\xa01 2",
    b"link 1 2#x",
    b"link 1 2#",
    b"link 1 #2",
    b"link 1 # 2",
    b"link # 1 2",
    b"link# 1 2",
    b"; link 1 2",
    b"link",
    b"link 1",
    b"unlink 1",
    b"withdraw",
    b"link 1 2 3",
    b"unlink 1 2 3",
    b"withdraw 1 2",
    b"depart 1 2",
    b"partner 1 2",
    b"link 1 2 depart 4",
    b"withdraw 65536",
    b"link 65536 0",
    b"link 0 65536",
    b"depart 18446744073709551620",
    b"depart +4",
    b"depart -4",
    b"depart -0",
    b"depart 4a",
    b"depart x4",
    b"depart 4.0",
    b"depart \xd9\xa4",
    b"depart 4\r\r",
    b"depart\r 4",
];

#[test]
fn bad_lines(rt: HostRuntime) {
    for line in BAD_LINES {
        check_bad_text(&rt, line, BadText::Line(1, line));
    }
}

// Texts, and the first bad line of each with its number.
const BAD_TEXTS: [(&[u8], usize, &[u8]); 7] = [
    (b"depart\ndepart 4\n", 1, b"depart"),
    (b"link 0 1\nlink 2", 2, b"link 2"),
    (b"link 0 1\n\nlink 2\n", 3, b"link 2"),
    (b"\r\n\r\npartne 1\r\n", 3, b"partne 1\r"),
    (b"# one\n  # two\n\n\nlink 1 2\nLink 1 2\n", 6, b"Link 1 2"),
    (b"link 1 2\ndepart\nlink\n", 2, b"depart"),
    (b"\n\n\n\n\n\n\n\n\n\n\tx", 11, b"\tx"),
];

#[test]
fn bad_texts(rt: HostRuntime) {
    for (text, number, line) in BAD_TEXTS {
        check_bad_text(&rt, text, BadText::Line(number, line));
    }
}

// So many times one line, and then so many times another.
fn two_runs(
    heap: Global,
    first: (&str, usize),
    second: (&str, usize),
) -> Result<String, AllocError> {
    let mut text = String::new(heap);
    for (line, count) in [first, second] {
        for _ in 0..count {
            push_full_line(&mut text, line)?;
        }
    }
    Ok(text)
}

// The bytes of so many times `depart 4`, and then of so many times `link 1 2`.
fn two_runs_of_bytes(heap: Global, departs: usize, links: usize) -> Result<Vec<u8>, AllocError> {
    let mut bytes = Vec::new(heap);
    for _ in 0..departs {
        bytes.extend_from_slice(&[4, 0, 4])?;
    }
    for _ in 0..links {
        bytes.extend_from_slice(&[1, 0, 1, 0, 2])?;
    }
    Ok(bytes)
}

// 2 × 3 + 13,106 × 5 bytes are 65,536; what gives no byte may follow, and no command may.
#[test]
fn longest_text(rt: HostRuntime) -> Result<(), Fail> {
    let mut text = two_runs(rt.alloc(), ("depart 4", 2), ("link 1 2", 13_106))?;
    let bytes = two_runs_of_bytes(rt.alloc(), 2, 13_106)?;
    assert_eq!(rt; bytes.len(), 65_536);
    check_encode(&rt, text.as_bytes(), bytes.as_slice())?;
    check_decode(&rt, bytes.as_slice(), text.as_str())?;
    push_full_line(&mut text, "\n# the end")?;
    check_encode(&rt, text.as_bytes(), bytes.as_slice())?;
    text.push_str("depart 4")?;
    check_bad_text(&rt, text.as_bytes(), BadText::TooLong);
    Ok(())
}

// 4 × 3 + 13,105 × 5 bytes are 65,537.
#[test]
fn one_byte_more(rt: HostRuntime) -> Result<(), Fail> {
    let text = two_runs(rt.alloc(), ("depart 4", 4), ("link 1 2", 13_105))?;
    check_bad_text(&rt, text.as_bytes(), BadText::TooLong);
    let bytes = two_runs_of_bytes(rt.alloc(), 4, 13_105)?;
    assert_eq!(rt; bytes.len(), 65_537);
    check_bad_stream(&rt, bytes.as_slice(), Refusal::WrongLength, 0);
    Ok(())
}

// Streams with an unknown command byte, or that end inside a command, and the place of its
// first byte.
const BAD_STREAMS: [(&[u8], Refusal, usize); 16] = [
    (&[0], Refusal::UnknownCommand, 0),
    (&[6], Refusal::UnknownCommand, 0),
    (&[255, 0, 4], Refusal::UnknownCommand, 0),
    (&[9, 4, 0, 4], Refusal::UnknownCommand, 0),
    (&[4, 0, 4, 0], Refusal::UnknownCommand, 3),
    (&[1, 0, 1, 0, 2, 9], Refusal::UnknownCommand, 5),
    (&[1, 0, 1, 0, 2, 5, 0, 1, 10], Refusal::UnknownCommand, 8),
    (&[1], Refusal::CutShort, 0),
    (&[1, 0, 1, 0], Refusal::CutShort, 0),
    (&[2, 0, 1, 0], Refusal::CutShort, 0),
    (&[3, 0], Refusal::CutShort, 0),
    (&[4, 0], Refusal::CutShort, 0),
    (&[5], Refusal::CutShort, 0),
    (&[5, 0, 1, 3, 0], Refusal::CutShort, 3),
    (&[1, 0, 1, 0, 2, 2, 0, 1, 0], Refusal::CutShort, 5),
    (&[4, 0, 4, 4, 0, 4, 1, 0], Refusal::CutShort, 6),
];

#[test]
fn bad_streams(rt: HostRuntime) {
    for (bytes, refusal, place) in BAD_STREAMS {
        check_bad_stream(&rt, bytes, refusal, place);
    }
    let fives = [5u8; 65_537];
    check_bad_stream(&rt, &fives[..65_536], Refusal::CutShort, 65_535);
    check_bad_stream(&rt, &fives, Refusal::WrongLength, 0);
}

// A bad line, and how it is shown: without a carriage return, with escapes, and cut after 60 bytes.
const SHOWN: [(&[u8], &str); 8] = [
    (b"lnk 3", "\"lnk 3\""),
    (b"lnk 3\r", "\"lnk 3\""),
    (b"lnk 3\r\r", "\"lnk 3\\r\""),
    (b"\tlnk", "\"\\tlnk\""),
    (b"a\"b\\c", "\"a\\\"b\\\\c\""),
    (b"\x00\x1b[2J\x7f\xff", "\"\\x00\\x1b[2J\\x7f\\xff\""),
    (
        b"123456789 123456789 123456789 123456789 123456789 123456789 ",
        "\"123456789 123456789 123456789 123456789 123456789 123456789 \"",
    ),
    (
        b"123456789 123456789 123456789 123456789 123456789 123456789 1",
        "\"123456789 123456789 123456789 123456789 123456789 123456789 \"..",
    ),
];

#[test]
fn shown(rt: HostRuntime) -> Result<(), Fail> {
    for (line, quoted) in SHOWN {
        let words = format!(in rt.alloc();
            "line 7: {quoted} is no command \
            (link A B, unlink A B, withdraw A, depart A, partner A)"
        )?;
        check_printed(&rt, BadText::Line(7, line), words.as_str())?;
    }
    Ok(())
}

#[test]
fn told(rt: HostRuntime) -> Result<(), Fail> {
    check_printed(
        &rt,
        BadText::Line(2, b"lnk 3"),
        "line 2: \"lnk 3\" is no command (link A B, unlink A B, withdraw A, depart A, partner A)",
    )?;
    check_printed(
        &rt,
        BadText::TooLong,
        "the commands come to more than 65536 bytes",
    )?;
    check_printed(&rt, BadText::NoMemory, "no memory is left")?;
    let at = |refusal: Refusal, place| BadStream::At(refusal.by(Layer::Stream), place);
    check_printed(
        &rt,
        at(Refusal::UnknownCommand, 5),
        "byte 5: unknown command byte (refusal 12)",
    )?;
    check_printed(
        &rt,
        at(Refusal::CutShort, 65_535),
        "byte 65535: the stream ends inside a command (refusal 13)",
    )?;
    check_printed(
        &rt,
        at(Refusal::WrongLength, 0),
        "the stream has more than 65536 bytes (refusal 3)",
    )?;
    check_printed(&rt, BadStream::NoMemory, "no memory is left")
}
