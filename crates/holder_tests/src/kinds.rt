// Runs a test on every kind of book.
use book_kinds::{BookKind, Shape, each_kind_of_book};
use class_filter::ClassFilter;
use links::Book;
use std::alloc::Global;
use std::fmt::Debug;
use std::process::Abort;
use std::test::Fail;

// The smallest numbers of loads, those at the ends of a word of 64 bits, and the largest.
pub const SIZES: [usize; 10] = [1, 2, 3, 63, 64, 65, 127, 128, 255, 256];

// A book of so many loads that has room for every link.
pub fn roomy(size: usize) -> Shape {
    Shape {
        size,
        row_limit: size.saturating_sub(1).max(1),
        limit: 32640,
    }
}

// The same with room for so many links.
pub fn narrow(size: usize, limit: usize) -> Shape {
    Shape {
        limit,
        ..roomy(size)
    }
}

// A filter that bars no pair.
fn open_filter<B: Book>(below: B) -> ClassFilter<B> {
    ClassFilter::new(below, &[1, 2, 3], [0; 8])
}

// A test that any fresh book of a shape passes, whose loads may each take so many links.
pub trait BookTest {
    fn run<B: Book + Drop>(rt: &impl Abort, book: B, shape: Shape, spare: usize);
}

// Runs a test on a fresh book of a kind, behind so many filters.
fn run_on<'a, K: BookKind<'a>, T: BookTest>(
    rt: &impl Abort,
    memory: &'a mut [K::Cell],
    shape: Shape,
    filters: usize,
) {
    let spare = K::fresh_spare(shape);
    let book = K::make(shape, memory);
    match filters {
        0 => T::run(rt, book, shape, spare),
        1 => T::run(rt, open_filter(book), shape, spare),
        _ => T::run(rt, open_filter(open_filter(book)), shape, spare),
    }
}

// All cells after the first `need` hold what they held before.
pub fn check_past<C: PartialEq + Debug>(rt: &impl Abort, memory: &[C], need: usize, noise: &C) {
    for cell in memory.iter().skip(need) {
        assert_eq!(rt; cell, noise);
    }
}

macro_rules! on_kind {
    ($kind:ty, ($rt:ident, $alloc:ident, $shape:ident, $test:ty)) => {
        let need = <$kind as BookKind>::need($shape);
        let noise = <$kind as BookKind>::noise();
        let mut memory = vec![in $alloc; noise; need.saturating_add(3)]?;
        for filters in 0..3 {
            run_on::<$kind, $test>($rt, &mut memory, $shape, filters);
            check_past($rt, &memory, need, &noise);
        }
    };
}

// Runs a test on every kind of book, by itself, behind a filter and behind two, in memory that is
// not clear. What the book does not need of the memory stays as it was.
pub fn on_every_kind<T: BookTest>(
    rt: &impl Abort,
    alloc: Global,
    shape: Shape,
) -> Result<(), Fail> {
    each_kind_of_book!(on_kind(rt, alloc, shape, T));
    Ok(())
}
