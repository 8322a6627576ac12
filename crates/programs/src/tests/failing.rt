// Inputs that come a byte at a time or not at all, and outputs that cannot be written.
use super::check_ended;
use crate::ended::{Ended, finish};
use crate::{pairboard, pairtext};
use std::alloc::Global;
use std::cell::RefCell;
use std::fmt::Display;
use std::io;
use std::io::Read;
use std::process::{Abort, ExitCode};
use std::test::Fail;

// Gives a byte at each reading.
#[derive(Drop)]
struct OneByOne<'a>(&'a [u8]);

impl Read for OneByOne<'_> {
    fn read(&mut self, buf: &mut [u8]) -> io::Result<usize> {
        match (self.0, buf) {
            ([first, rest @ ..], [place, ..]) => {
                *place = *first;
                self.0 = rest;
                Ok(1)
            }
            _ => Ok(0),
        }
    }
}

#[derive(Drop)]
struct Unreadable;

impl Read for Unreadable {
    fn read(&mut self, _buf: &mut [u8]) -> io::Result<usize> {
        Err(io::Error::from(io::ErrorKind::PermissionDenied))
    }
}

#[test]
fn a_byte_at_a_time(rt: HostRuntime) -> Result<(), Fail> {
    let stream = OneByOne(&[1, 0, 0, 0, 1, 5, 0, 1]);
    let played = pairboard::run(rt.alloc(), &["pairboard"], stream);
    check_ended(&rt, played, b"ok\nwith 0\n0 1\n", "", 0)?;
    let text = OneByOne(b"depart 4 # gone");
    let encoded = pairtext::run(rt.alloc(), &["pairtext"], text);
    check_ended(&rt, encoded, &[4, 0, 4], "", 0)
}

#[test]
fn input_that_fails(rt: HostRuntime) -> Result<(), Fail> {
    let message = "the input cannot be read: permission denied\n";
    let played = pairboard::run(rt.alloc(), &["pairboard"], Unreadable);
    check_ended(&rt, played, &[], message, 1)?;
    let encoded = pairtext::run(rt.alloc(), &["pairtext"], Unreadable);
    check_ended(&rt, encoded, &[], message, 1)
}

// Keeps what is written last, and writes no output where it is full.
#[derive(Drop)]
struct Terminal {
    heap: Global,
    full: bool,
    output: RefCell<String>,
    message: RefCell<String>,
}

impl Terminal {
    fn new(heap: Global, full: bool) -> Terminal {
        Terminal {
            heap,
            full,
            output: RefCell::new(String::new(heap)),
            message: RefCell::new(String::new(heap)),
        }
    }
}

fn keep(place: &RefCell<String>, text: String) -> io::Result<()> {
    match place.try_replace(text) {
        Ok(_) => Ok(()),
        Err(_) => Err(io::Error::from(io::ErrorKind::Other)),
    }
}

impl Print for Terminal {
    fn print<D: Display + Drop>(&self, value: D) -> io::Result<()> {
        keep(&self.output, format!(in self.heap; "{value}")?)
    }

    fn println<D: Display + Drop>(&self, value: D) -> io::Result<()> {
        keep(&self.output, format!(in self.heap; "{value}\n")?)
    }

    fn write_all(&self, bytes: &[u8]) -> io::Result<()> {
        if self.full {
            return Err(io::Error::from(io::ErrorKind::StorageFull));
        }
        keep(&self.output, String::from_utf8_lossy(self.heap, bytes)?)
    }
}

impl Eprint for Terminal {
    fn eprint<D: Display + Drop>(&self, value: D) -> io::Result<()> {
        keep(&self.message, format!(in self.heap; "{value}")?)
    }

    fn eprintln<D: Display + Drop>(&self, value: D) -> io::Result<()> {
        keep(&self.message, format!(in self.heap; "{value}\n")?)
    }
}

fn check_kept(rt: &impl Abort, place: &RefCell<String>, text: &str) -> Result<(), Fail> {
    let kept = place.try_borrow().ok().ok_or("not lent")?;
    assert_eq!(rt; kept.as_str(), text);
    Ok(())
}

// What a terminal has kept after a run that ended so, and the exit status.
fn check_finish(
    rt: &(impl Abort + AllocGlobal),
    full: bool,
    ended: io::Result<Ended>,
    output: &str,
    message: &str,
    status: u8,
) -> Result<(), Fail> {
    let terminal = Terminal::new(rt.alloc(), full);
    assert!(rt; finish(&terminal, ended) == ExitCode::from(status));
    check_kept(rt, &terminal.output, output)?;
    check_kept(rt, &terminal.message, message)
}

fn said(heap: Global, status: u8) -> io::Result<Ended> {
    let mut output = Vec::new(heap);
    output.extend_from_slice(b"ok\n")?;
    Ok(Ended {
        output,
        message: format!(in heap; "one sentence\n")?,
        status,
    })
}

#[test]
fn finishes(rt: HostRuntime) -> Result<(), Fail> {
    let heap = rt.alloc();
    for status in [0, 1, 2] {
        let ended = said(heap, status);
        check_finish(&rt, false, ended, "ok\n", "one sentence\n", status)?;
    }
    let full = "the output cannot be written: no storage space\n";
    check_finish(&rt, true, said(heap, 0), "", full, 1)?;
    let none = Err(io::Error::from(io::ErrorKind::OutOfMemory));
    let message = "the program cannot run: out of memory\n";
    check_finish(&rt, false, none, "", message, 1)
}
