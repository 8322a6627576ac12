// Makings of books and of link lists, most at the edges of what they take.
ghost use Rattle.std.specs.Prelude.{◌≤◌};

use crate::comparing::{same, same_book, same_links};
use crate::random::Random;
use crate::trial::Trial;
use anyhow::{Context, Result};
use book_kinds::{BookKind, Shape, each_kind_of_book};
use link_list::{Entry, LinkList};
use reference::makings::{book, list};
use reference::plain_book::PlainBook;

const SIZES: [usize; 12] = [0, 1, 2, 3, 63, 64, 65, 128, 255, 256, 257, usize::MAX];

const LIMITS: [usize; 7] = [0, 1, 2, 2048, 32_640, 32_641, usize::MAX];

const ROW_LIMITS: [usize; 7] = [0, 1, 2, 15, 255, 256, usize::MAX];

// One of these numbers.
fn draw(random: &mut Random, numbers: &[usize]) -> usize {
    random.pick(numbers).unwrap_or(0)
}

// A length just below or above what is needed, as far as there is memory.
fn draw_length(random: &mut Random, need: usize, most: usize) -> usize
    ensures { result ≤ most }
{
    need.saturating_add(random.below(3))
        .saturating_sub(1)
        .min(most)
}

// The largest book there is, and with it the most memory that a kind needs.
const LARGEST: Shape = Shape {
    size: 256,
    row_limit: 255,
    limit: 32_640,
};

// What a making may be asked for. A kind that takes no row limit has 1.
fn draw_shape(random: &mut Random, has_row_limit: bool) -> Shape {
    let size = draw(random, &SIZES);
    let row_limit = if has_row_limit {
        draw(random, &ROW_LIMITS)
    } else {
        1
    };
    Shape {
        size,
        row_limit,
        limit: draw(random, &LIMITS),
    }
}

// Tries a making of one kind of book, in memory that is not clear.
macro_rules! try_making {
    ($kind:ty, ($trial:ident, $n:ident)) => {
        let most = <$kind as BookKind>::need(LARGEST).saturating_add(1);
        let mut memory = vec![in $trial.alloc; <$kind as BookKind>::noise(); most]?;
        $trial
            .making::<$kind>(&mut memory)
            .context(format_args!("{} {}", <$kind as BookKind>::NAME, $n))?;
    };
}

impl Trial {
    fn making<'a, K: BookKind<'a>>(&mut self, memory: &'a mut [K::Cell]) -> Result<()> {
        let shape = draw_shape(&mut self.random, K::HAS_ROW_LIMIT);
        let need = K::need(shape);
        let length = draw_length(&mut self.random, need, memory.len());
        let memory = &mut memory[..length];
        let answer = K::check(shape, memory);
        self.counts.answer(&answer);
        let expected = book(shape.size, shape.row_limit, shape.limit, need, length);
        same("making of a book", answer, expected)?;
        let plain = match answer {
            Ok(()) => PlainBook::new(self.alloc, shape.size, K::fresh_spare(shape), shape.limit)?,
            Err(_) => PlainBook::new(self.alloc, 0, 0, 0)?,
        };
        same_book(&K::make(shape, memory), &plain)
    }

    // So many makings of each kind of book.
    pub fn makings(&mut self, number: usize) -> Result<()> {
        for n in 0..number {
            each_kind_of_book!(try_making(self, n));
        }
        Ok(())
    }

    // Entries that mostly rise.
    fn draw_entries(&mut self) -> Result<Vec<(u16, u16)>> {
        let mut entries = Vec::new(self.alloc);
        for a in 0..10 {
            for b in a + 1..10 {
                if self.random.chance(30) {
                    entries.push((a, b))?;
                }
            }
        }
        if self.random.chance(50) {
            let index = self.random.below(entries.len());
            let pair = (draw_number(&mut self.random), draw_number(&mut self.random));
            if let Some(entry) = entries.get_mut(index) {
                *entry = pair;
            }
        }
        Ok(entries)
    }

    fn list_making(&mut self) -> Result<()> {
        let pairs = self.draw_entries()?;
        let mut entries = Vec::new(self.alloc);
        for &(a, b) in &pairs {
            entries.push(Entry { a, b })?;
        }
        let size = draw(&mut self.random, &[0, 1, 5, 9, 10, 10, 10, 11, 256, 257]);
        let answer = LinkList::check(size, &entries);
        self.counts.answer(&answer);
        same("making of a list", answer, list(size, &pairs))?;
        let size = if answer.is_ok() { size } else { 0 };
        let mut plain = PlainBook::new(self.alloc, size, size, pairs.len())?;
        for &(a, b) in &pairs {
            // a list that was refused has no loads
            let _ = plain.add(usize::from(a), usize::from(b))?;
        }
        same_links(&LinkList::new(size, &entries), &plain)
    }

    // So many lists.
    pub fn lists(&mut self, number: usize) -> Result<()> {
        for n in 0..number {
            self.list_making().context(format_args!("list {n}"))?;
        }
        Ok(())
    }
}

fn draw_number(random: &mut Random) -> u16 {
    u16::try_from(random.below(12)).unwrap_or(0)
}
