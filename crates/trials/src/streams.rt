// Streams of commands, many of them damaged, and commands written.
use crate::comparing::{same, same_board};
use crate::random::Random;
use crate::trial::Trial;
use anyhow::{Context, Result};
use board::Board;
use book_kinds::{BookKind, Shape, each_kind_of_book};
use commands::{Command, read};
use links::Book;
use ranking::{ByNumber, Ranking};
use reference::calls::{self, Call};
use reference::order::Order;
use reference::pairing::Pairing;
use reference::plain_book::PlainBook;
use stream::{Stepped, list_pairs, step};

// A command in the reference's words.
fn call_of(command: Command) -> Call {
    match command {
        Command::Link(a, b) => Call::Link(a, b),
        Command::Unlink(a, b) => Call::Unlink(a, b),
        Command::Withdraw(a) => Call::Withdraw(a),
        Command::Depart(a) => Call::Depart(a),
        Command::Partner(a) => Call::Partner(a),
    }
}

fn draw_number(random: &mut Random, most: usize) -> u16 {
    u16::try_from(random.below(most)).unwrap_or(u16::MAX)
}

fn draw_command(random: &mut Random, most: usize) -> Command {
    let a = draw_number(random, most);
    let b = draw_number(random, most);
    match random.below(5) {
        0 => Command::Link(a, b),
        1 => Command::Unlink(a, b),
        2 => Command::Withdraw(a),
        3 => Command::Depart(a),
        _ => Command::Partner(a),
    }
}

// What an output holds that nothing was written to.
const UNTOUCHED: u8 = 0x55;

// An output with these bytes at its start.
fn output<const N: usize>(bytes: &[u8]) -> [u8; N] {
    let mut out = [UNTOUCHED; N];
    for (place, byte) in out.iter_mut().zip(bytes) {
        *place = *byte;
    }
    out
}

// The books that streams are played on.
const EIGHT: Shape = Shape {
    size: 8,
    row_limit: 7,
    limit: 12,
};

// Plays a stream on one kind of book.
macro_rules! play_stream {
    ($kind:ty, ($trial:ident, $stream:ident, $n:ident)) => {
        let need = <$kind as BookKind>::need(EIGHT);
        let mut memory = vec![in $trial.alloc; <$kind as BookKind>::noise(); need]?;
        $trial
            .play_stream::<$kind>(&$stream, &mut memory)
            .context(format_args!("stream {} on {}", $n, <$kind as BookKind>::NAME))?;
    };
}

impl Trial {
    // Writes a command into an output that may be too short, and puts its bytes at the end of a
    // stream.
    fn write_one(&mut self, stream: &mut Vec<u8>, most: usize) -> Result<()> {
        let command = draw_command(&mut self.random, most);
        let room = self.random.between(2, 7);
        let mut out = [UNTOUCHED; 7];
        let mut expected = out;
        let answer = command.write(&mut out[..room]);
        let bytes = call_of(command).write(&mut expected[..room]);
        self.counts.answer(&answer);
        same("writing a command", answer, bytes)?;
        same("the output", out, expected)?;
        for byte in out.iter().take(answer.unwrap_or(0)) {
            stream.push(*byte)?;
        }
        Ok(())
    }

    // Reads a stream from its start, a command after the other, up to its end or the first refusal.
    fn read_all(&mut self, stream: &[u8]) -> Result<()> {
        let mut place = 0;
        for _ in 0..=stream.len() {
            let answer = read(stream, place);
            let decoded = answer.map(|found| found.map(|d| (call_of(d.command), d.next)));
            let expected = calls::read(stream, place).map(|found| found.map(|c| (c.call, c.next)));
            self.counts.answer(&answer);
            same("reading a command", decoded, expected)?;
            match answer {
                Ok(Some(decoded)) => place = decoded.next,
                _ => break,
            }
        }
        Ok(())
    }

    // Commands on loads below a number, one byte of which may be wrong, and the last of which may
    // be cut short.
    fn draw_stream(&mut self, most: usize) -> Result<Vec<u8>> {
        let mut stream = Vec::new(self.alloc);
        for _ in 0..self.random.below(24) {
            self.write_one(&mut stream, most)?;
        }
        let place = self.random.below(stream.len());
        match self.random.below(4) {
            0 => stream.truncate(place),
            1 => {
                let wrong = self.random.byte();
                if let Some(byte) = stream.get_mut(place) {
                    *byte = wrong;
                }
            }
            _ => {}
        }
        Ok(stream)
    }

    // Makes a step, in an output that may be too short, and answers the place after it.
    fn play_step<B: Book, R: Ranking>(
        &mut self,
        board: &mut Board<B, R>,
        pairing: &mut Pairing,
        stream: &[u8],
        place: usize,
    ) -> Result<Option<usize>> {
        let room = self.random.between(18, 19);
        let mut out = [UNTOUCHED; 19];
        let answer = step(board, stream, place, &mut out[..room]);
        self.counts.answer(&answer);
        match pairing.step(self.alloc, stream, place, room)? {
            Ok(expected) => {
                let stepped = Stepped {
                    place: expected.next,
                    written: expected.line.len(),
                };
                same("a step", answer, Ok(stepped))?;
                same("its line", out, output(expected.line.as_bytes()))?;
            }
            Err(refused) => {
                same("a step", answer, Err(refused))?;
                same("its output", out, output(&[]))?;
            }
        }
        same_board(board, pairing)?;
        Ok(answer.ok().map(|stepped| stepped.place))
    }

    // The list of the pairs, in an output that may be too short.
    fn list<B: Book, R: Ranking>(&mut self, board: &Board<B, R>, pairing: &Pairing) -> Result<()> {
        let room = self.random.below(33);
        let mut out = [UNTOUCHED; 32];
        let answer = list_pairs(board, &mut out[..room]);
        self.counts.answer(&answer);
        match pairing.pair_lines(self.alloc, room)? {
            Ok(lines) => {
                same("list of pairs", answer, Ok(lines.len()))?;
                same("its lines", out, output(lines.as_bytes()))
            }
            Err(refused) => {
                same("list of pairs", answer, Err(refused))?;
                same("its output", out, output(&[]))
            }
        }
    }

    // Plays a stream on a board step by step, up to where the place stays, and lists the pairs.
    fn play_stream<'a, K: BookKind<'a>>(
        &mut self,
        stream: &[u8],
        memory: &'a mut [K::Cell],
    ) -> Result<()> {
        let mut board = Board::open(K::make(EIGHT, memory), ByNumber);
        let spare = K::fresh_spare(EIGHT);
        let plain = PlainBook::new(self.alloc, EIGHT.size, spare, EIGHT.limit)?;
        let mut pairing = Pairing::open(self.alloc, plain, Order::ByNumber)?;
        let mut place = 0;
        for _ in 0..100 {
            match self.play_step(&mut board, &mut pairing, stream, place)? {
                Some(next) if next == place => break,
                Some(next) => place = next,
                None => {}
            }
        }
        self.list(&board, &pairing)
    }

    // So many streams for a board of eight loads, and others, and one that is too long.
    pub fn streams(&mut self, number: usize) -> Result<()> {
        for n in 0..number {
            let stream = self.draw_stream(10)?;
            each_kind_of_book!(play_stream(self, stream, n));
            let stream = self.draw_stream(65_536)?;
            self.read_all(&stream)
                .context(format_args!("stream {n} of any loads"))?;
        }
        let long = vec![in self.alloc; 5u8; 65_537]?;
        self.read_all(&long[..65_536])?;
        self.read_all(&long)
    }
}
