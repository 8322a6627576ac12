// A morning at an exchange, played on a board: what each call answers, and who is paired after it.

use crate::report::{answer, judge};
use audit::NO_PARTNER;
use bit_matrix::BitMatrix;
use board::Board;
use commands::Command;
use links::{Book, Refused};
use ranking::{ByNumber, Ranking};
use std::{array, io};

const SIZE: usize = 8;

// The six loads and the cancellation that once left two of them alone, some mistakes, a withdrawal
// and a departure.
const MORNING: [Command; 17] = [
    Command::Link(0, 1),
    Command::Link(2, 3),
    Command::Link(0, 2),
    Command::Link(1, 3),
    Command::Link(1, 5),
    Command::Link(3, 4),
    Command::Link(6, 6),
    Command::Link(0, 8),
    Command::Link(1, 0),
    Command::Unlink(4, 5),
    Command::Unlink(0, 1),
    Command::Link(6, 7),
    Command::Link(4, 6),
    Command::Withdraw(3),
    Command::Depart(3),
    Command::Link(3, 7),
    Command::Depart(0),
];

// Makes the call that a command stands for.
fn make<B: Book, R: Ranking>(board: &mut Board<B, R>, command: Command) -> Result<(), Refused> {
    match command {
        Command::Link(a, b) => board.link(usize::from(a), usize::from(b)),
        Command::Unlink(a, b) => board.unlink(usize::from(a), usize::from(b)),
        Command::Withdraw(a) => board.withdraw(usize::from(a)),
        Command::Depart(a) => board.depart(usize::from(a)),
        Command::Partner(a) => board.partner(usize::from(a)).map(|_| ()),
    }
}

// Each pair once, at its lower load.
fn list_partners<B: Book, R: Ranking>(rt: &impl Print, board: &Board<B, R>) -> io::Result<()> {
    print!(rt; "  partners:")?;
    for a in 0..SIZE {
        if let Ok(Some(b)) = board.partner(a)
            && a < b
        {
            print!(rt; " {a}-{b}")?;
        }
    }
    println!(rt)
}

// The partners that the board tells, as claims for the audit.
fn claims<B: Book, R: Ranking>(board: &Board<B, R>) -> [u16; SIZE] {
    array::from_fn(|a| match board.partner(a) {
        Ok(Some(b)) => u16::try_from(b).unwrap_or(NO_PARTNER),
        _ => NO_PARTNER,
    })
}

/// Prints what each call of the morning answers, the partners after it, and the audit of the last.
pub fn play(rt: &impl Print) -> io::Result<()> {
    println!(rt;
        "A morning at an exchange: eight loads, at most nine links, the lower number first."
    )?;
    let mut words = [0; SIZE];
    let mut board = Board::open(BitMatrix::new(SIZE, 9, &mut words), ByNumber);
    for command in MORNING {
        answer(rt, command, make(&mut board, command))?;
        list_partners(rt, &board)?;
    }
    println!(rt; "{} pairs are left.", board.pair_count())?;
    println!(rt; "The audit of these pairs:")?;
    judge(rt, board.book(), &claims(&board))
}
