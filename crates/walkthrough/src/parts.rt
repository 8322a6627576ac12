// A bit matrix, rows, a filter, the audit and the rankings at work.

use crate::report::{answer, judge};
use audit::NO_PARTNER;
use bit_matrix::BitMatrix;
use class_filter::ClassFilter;
use commands::Command;
use links::members::linked_loads;
use links::{Book, Links};
use ranking::detour::{ByDetour, Place};
use ranking::{ByNumber, Ranking};
use sorted_rows::SortedRows;
use std::io;

// Links the two loads of each pair, one pair after the other.
fn add<B: Book>(rt: &impl Print, book: &mut B, pairs: &[(u16, u16)]) -> io::Result<()> {
    for &(a, b) in pairs {
        answer(
            rt,
            Command::Link(a, b),
            book.add(usize::from(a), usize::from(b)),
        )?;
    }
    Ok(())
}

fn remove<B: Book>(rt: &impl Print, book: &mut B, a: u16, b: u16) -> io::Result<()> {
    answer(
        rt,
        Command::Unlink(a, b),
        book.remove(usize::from(a), usize::from(b)),
    )
}

// The loads that each load below n is linked to.
fn list_links<L: Links>(rt: &impl Print, links: &L, n: usize) -> io::Result<()> {
    for a in 0..n {
        let degree = links.degree(a);
        let noun = if degree == 1 { "link" } else { "links" };
        print!(rt; "load {a} has {degree} {noun}:")?;
        for b in linked_loads(links, a, n) {
            print!(rt; " {b}")?;
        }
        println!(rt)?;
    }
    Ok(())
}

fn six_loads(rt: &impl Print) -> io::Result<()> {
    println!(rt; "A bit matrix for six loads and at most six links.")?;
    let mut words = [0; 6];
    let mut book = BitMatrix::new(6, 6, &mut words);
    let first = [(0, 1), (2, 3), (0, 6), (4, 4), (0, 2), (1, 3), (3, 1)];
    add(rt, &mut book, &first)?;
    remove(rt, &mut book, 4, 5)?;
    add(rt, &mut book, &[(1, 5), (3, 4), (4, 5)])?;
    remove(rt, &mut book, 0, 1)?;
    list_links(rt, &book, 6)?;
    audits(rt, &book)
}

fn audits<L: Links>(rt: &impl Print, links: &L) -> io::Result<()> {
    println!(rt; "Four pairings that somebody claims.")?;
    println!(rt; "0 with 2, 2 with 3, 3 with 2:")?;
    judge(rt, links, &[2, NO_PARTNER, 3, 2, NO_PARTNER, NO_PARTNER])?;
    println!(rt; "0 and 1, 2 and 3:")?;
    judge(rt, links, &[1, 0, 3, 2, NO_PARTNER, NO_PARTNER])?;
    println!(rt; "0 and 2, 1 and 3, which leaves 4 and 5 alone:")?;
    judge(rt, links, &[2, 3, 0, 1, NO_PARTNER, NO_PARTNER])?;
    println!(rt; "0 and 2, 1 and 5, 3 and 4:")?;
    judge(rt, links, &[2, 5, 0, 4, 3, 1])
}

// Rows of at most two links each, and a filter over them: loads 0 and 1 carry food (class 1), load
// 3 paint (class 2).
fn rows_and_filter(rt: &impl Print) -> io::Result<()> {
    println!(rt; "Rows of at most two links each, for four loads.")?;
    let mut numbers = [0; 12];
    let mut book = SortedRows::new(4, 2, 6, &mut numbers);
    add(rt, &mut book, &[(0, 3), (0, 1), (0, 2)])?;
    println!(rt; "The same rows behind a filter that bars class 1 with class 2.")?;
    let mut filtered = ClassFilter::new(book, &[1, 1, 0, 2], [0, 4, 0, 0, 0, 0, 0, 0]);
    list_links(rt, &filtered, 4)?;
    add(rt, &mut filtered, &[(1, 3)])?;
    remove(rt, &mut filtered, 0, 3)?;
    add(rt, &mut filtered, &[(1, 2)])
}

// A row that is full, and a book that is full.
fn full(rt: &impl Print) -> io::Result<()> {
    println!(rt; "Rows of one link each, for three loads, and at most three links.")?;
    let mut numbers = [0; 6];
    let mut rows = SortedRows::new(3, 1, 3, &mut numbers);
    add(rt, &mut rows, &[(0, 1), (0, 2)])?;
    println!(rt; "A bit matrix for four loads and at most one link.")?;
    let mut words = [0; 4];
    let mut matrix = BitMatrix::new(4, 1, &mut words);
    add(rt, &mut matrix, &[(0, 1), (2, 3)])
}

fn compare<R: Ranking>(
    rt: &impl Print,
    how: &str,
    ranking: &R,
    x: usize,
    y: usize,
) -> io::Result<()> {
    let (first, second) = if ranking.comes_first(0, x, y) {
        (x, y)
    } else {
        (y, x)
    };
    println!(rt; "{how}: for load 0, load {first} comes before load {second}")
}

fn rankings(rt: &impl Print) -> io::Result<()> {
    println!(rt; "Load 0 at 0, 0; load 1 at -3, 4; load 2 at 5, 1.")?;
    let places = [
        Place { x: 0, y: 0 },
        Place { x: -3, y: 4 },
        Place { x: 5, y: 1 },
    ];
    let by_detour = ByDetour::new(&places);
    println!(rt;
        "the detours from load 0 are {} and {}",
        by_detour.detour(0, 1),
        by_detour.detour(0, 2)
    )?;
    compare(rt, "by number", &ByNumber, 1, 2)?;
    compare(rt, "by detour", &by_detour, 1, 2)
}

/// Prints what books, rows, a filter, rankings and audits answer.
pub fn show(rt: &impl Print) -> io::Result<()> {
    six_loads(rt)?;
    full(rt)?;
    rows_and_filter(rt)?;
    rankings(rt)
}
