// Holds what the crates answer against what the reference answers.
use anyhow::{Result, ensure};
use board::Board;
use links::{Book, Links};
use ranking::Ranking;
use reference::pairing::Pairing;
use reference::plain_book::PlainBook;
use std::fmt::Debug;

// An error that says so, where an answer is not that of the reference.
pub fn same<T: PartialEq + Debug + Drop>(what: &str, found: T, expected: T) -> Result<()> {
    ensure!(
        found == expected,
        "{what}: {found:?}, and by the reference {expected:?}"
    );
    Ok(())
}

// The loads linked to a, by walking from one to the next.
fn same_walk<L: Links>(links: &L, plain: &PlainBook, a: usize) -> Result<()> {
    let mut from = 0;
    for _ in 0..=plain.size() {
        let next = links.next_linked(a, from);
        same("next linked load", next, plain.next_linked(a, from))?;
        match next {
            Some(b) => from = b.saturating_add(1),
            None => break,
        }
    }
    Ok(())
}

// Every question about links, for every load and the first two numbers past them.
pub fn same_links<L: Links>(links: &L, plain: &PlainBook) -> Result<()> {
    let size = plain.size();
    same("size", links.size(), size)?;
    same("number of links", links.link_count(), plain.link_count())?;
    for a in 0..size.saturating_add(2) {
        same("degree", links.degree(a), plain.degree(a))?;
        same_walk(links, plain, a)?;
        for b in 0..size.saturating_add(2) {
            same("linked", links.linked(a, b), plain.linked(a, b))?;
        }
    }
    Ok(())
}

// Every question about a book.
pub fn same_book<B: Book>(book: &B, plain: &PlainBook) -> Result<()> {
    same_links(book, plain)?;
    same("limit", book.limit(), plain.limit())?;
    same("room", book.room(), plain.room())?;
    for a in 0..plain.size().saturating_add(2) {
        same("spare", book.spare(a), plain.spare(a))?;
        for b in 0..plain.size().saturating_add(2) {
            same("barred", book.is_barred(a, b), plain.is_barred(a, b))?;
        }
    }
    Ok(())
}

// The free loads linked to a, by walking from one to the next.
fn same_free_walk<B: Book, R: Ranking>(
    board: &Board<B, R>,
    pairing: &Pairing,
    a: usize,
) -> Result<()> {
    let mut from = 0;
    for _ in 0..=pairing.book().size() {
        let next = board.next_free_link(a, from);
        let expected = pairing.next_free_link(a, from);
        same("next free link", next, expected)?;
        match next {
            Ok(Some(b)) => from = b.saturating_add(1),
            _ => break,
        }
    }
    Ok(())
}

// Every question about a board, for every load and the first two numbers past them.
pub fn same_board<B: Book, R: Ranking>(board: &Board<B, R>, pairing: &Pairing) -> Result<()> {
    same_book(board.book(), pairing.book())?;
    same("pairs", board.pair_count(), pairing.pair_count())?;
    for a in 0..pairing.book().size().saturating_add(2) {
        same("partner", board.partner(a), pairing.partner(a))?;
        same("free links", board.free_links(a), pairing.free_links(a))?;
        same_free_walk(board, pairing, a)?;
    }
    Ok(())
}
