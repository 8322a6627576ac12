// What every kind of book answers, by itself, behind a filter, and behind a filter on a filter.
use crate::kinds::{BookTest, narrow, on_every_kind, roomy};
use book_kinds::Shape;
use links::{Book, Layer, Refusal};
use std::process::Abort;
use std::test::Fail;

// Whether a rule links two loads. Of five parts of all pairs it links so many: 0 links none, and 5
// links all.
fn is_linked_by_rule(a: usize, b: usize, size: usize, parts: usize) -> bool {
    a < size && b < size && a != b && (a.abs_diff(b) ^ a.min(b)) % 5 < parts
}

// How many loads the rule links a load to.
fn degree_by_rule(a: usize, size: usize, parts: usize) -> usize {
    (0..size)
        .filter(|&b| is_linked_by_rule(a, b, size, parts))
        .count()
}

// The answers about a load, where the links are those of the rule.
fn check_load<B: Book>(
    rt: &impl Abort,
    book: &B,
    a: usize,
    size: usize,
    spare: usize,
    parts: usize,
) {
    let past = size.saturating_add(2);
    let mut next = None;
    for b in (0..past).rev() {
        let linked = is_linked_by_rule(a, b, size, parts);
        assert_eq!(rt; book.linked(a, b), linked);
        assert_eq!(rt; book.is_barred(a, b), false);
        if linked {
            next = Some(b);
        }
        assert_eq!(rt; book.next_linked(a, b), next);
    }
    let degree = degree_by_rule(a, size, parts);
    assert_eq!(rt; book.degree(a), degree);
    let most = if a < size { spare } else { 0 };
    assert_eq!(rt; book.spare(a), most.saturating_sub(degree));
}

// The answers about the book, about sixteen of its loads with the last ones, and about two numbers
// past them.
fn check_all<B: Book>(rt: &impl Abort, book: &B, shape: Shape, spare: usize, parts: usize) {
    let size = shape.size;
    let mut ends = 0usize;
    for a in 0..size.saturating_add(2) {
        ends = ends.saturating_add(degree_by_rule(a, size, parts));
        if size < 16 || a % (size / 16) == 0 || a.saturating_add(2) >= size {
            check_load(rt, book, a, size, spare, parts);
        }
    }
    assert_eq!(rt; book.size(), size);
    assert_eq!(rt; book.limit(), shape.limit);
    assert_eq!(rt; book.link_count(), ends / 2);
    assert_eq!(rt; book.room(), shape.limit.saturating_sub(ends / 2));
}

// Adds the links of so many parts that are not of fewer, each with the higher load first.
fn add_parts<B: Book>(rt: &impl Abort, book: &mut B, size: usize, fewer: usize, parts: usize) {
    for a in 0..size {
        for b in 0..a {
            if is_linked_by_rule(a, b, size, parts) && !is_linked_by_rule(a, b, size, fewer) {
                assert_eq!(rt; book.add(a, b), Ok(()));
            }
        }
    }
}

// Removes them, each with the lower load first.
fn remove_parts<B: Book>(rt: &impl Abort, book: &mut B, size: usize, fewer: usize, parts: usize) {
    for b in 0..size {
        for a in 0..b {
            if is_linked_by_rule(a, b, size, parts) && !is_linked_by_rule(a, b, size, fewer) {
                assert_eq!(rt; book.remove(a, b), Ok(()));
            }
        }
    }
}

// A fresh book, two fifths of all links, one fifth, and none again.
struct LinksComeAndGo;

impl BookTest for LinksComeAndGo {
    fn run<B: Book + Drop>(rt: &impl Abort, mut book: B, shape: Shape, spare: usize) {
        let size = shape.size;
        check_all(rt, &book, shape, spare, 0);
        add_parts(rt, &mut book, size, 0, 2);
        check_all(rt, &book, shape, spare, 2);
        remove_parts(rt, &mut book, size, 1, 2);
        check_all(rt, &book, shape, spare, 1);
        remove_parts(rt, &mut book, size, 0, 1);
        check_all(rt, &book, shape, spare, 0);
    }
}

#[test]
fn come_and_go(rt: HostRuntime) -> Result<(), Fail> {
    for size in [1, 2, 3, 63, 64, 65, 128] {
        on_every_kind::<LinksComeAndGo>(&rt, rt.alloc(), roomy(size))?;
    }
    Ok(())
}

#[test]
fn come_and_go_at_most(rt: HostRuntime) -> Result<(), Fail> {
    for size in [255, 256] {
        on_every_kind::<LinksComeAndGo>(&rt, rt.alloc(), roomy(size))?;
    }
    Ok(())
}

// Two numbers that are not both loads (4) and twice the same load (5) count before all else.
fn check_loads<B: Book>(rt: &impl Abort, book: &mut B, size: usize) {
    let last = size.saturating_sub(1);
    for (a, b) in [(0, size), (size, last), (size, size), (usize::MAX, 0)] {
        assert_eq!(rt; book.add(a, b), Err(Refusal::NoSuchLoad.by(Layer::Book)));
        assert_eq!(rt; book.remove(b, a), Err(Refusal::NoSuchLoad.by(Layer::Book)));
    }
    for a in [0, last] {
        assert_eq!(rt; book.add(a, a), Err(Refusal::SameLoad.by(Layer::Book)));
        assert_eq!(rt; book.remove(a, a), Err(Refusal::SameLoad.by(Layer::Book)));
    }
}

// A book with room for one link, whose loads have spares for more: 6 counts before 10. Each refused
// call leaves all as it was.
struct RefusedInOrder;

impl BookTest for RefusedInOrder {
    fn run<B: Book + Drop>(rt: &impl Abort, mut book: B, shape: Shape, spare: usize) {
        let last = shape.size.saturating_sub(1);
        check_loads(rt, &mut book, shape.size);
        assert_eq!(rt;
            book.remove(0, last),
            Err(Refusal::NotLinked.by(Layer::Book))
        );
        check_all(rt, &book, shape, spare, 0);
        assert_eq!(rt; book.add(0, last), Ok(()));
        check_loads(rt, &mut book, shape.size);
        assert_eq!(rt;
            book.add(last, 0),
            Err(Refusal::AlreadyLinked.by(Layer::Book))
        );
        assert_eq!(rt; book.add(0, 1), Err(Refusal::BookFull.by(Layer::Book)));
        assert_eq!(rt; book.add(1, last), Err(Refusal::BookFull.by(Layer::Book)));
        assert_eq!(rt; book.remove(0, 1), Err(Refusal::NotLinked.by(Layer::Book)));
        assert_eq!(rt; book.linked(last, 0), true);
        assert_eq!(rt; (book.link_count(), book.room()), (1, 0));
        assert_eq!(rt;
            (book.spare(0), book.spare(1)),
            (spare.saturating_sub(1), spare)
        );
        assert_eq!(rt; book.remove(last, 0), Ok(()));
        assert_eq!(rt;
            book.remove(last, 0),
            Err(Refusal::NotLinked.by(Layer::Book))
        );
        check_all(rt, &book, shape, spare, 0);
        assert_eq!(rt; book.add(0, 1), Ok(()));
    }
}

#[test]
fn refusals(rt: HostRuntime) -> Result<(), Fail> {
    for size in [3, 64, 65, 255, 256] {
        on_every_kind::<RefusedInOrder>(&rt, rt.alloc(), narrow(size, 1))?;
    }
    Ok(())
}

// Every pair is linked, and the book is full: 6 counts before 9 and 10.
struct Filled;

impl BookTest for Filled {
    fn run<B: Book + Drop>(rt: &impl Abort, mut book: B, shape: Shape, spare: usize) {
        add_parts(rt, &mut book, shape.size, 0, 5);
        check_all(rt, &book, shape, spare, 5);
        for (a, b) in [(0, 1), (1, 0), (shape.size.saturating_sub(1), 0)] {
            assert_eq!(rt; book.add(a, b), Err(Refusal::AlreadyLinked.by(Layer::Book)));
        }
        check_loads(rt, &mut book, shape.size);
        remove_parts(rt, &mut book, shape.size, 0, 5);
        check_all(rt, &book, shape, spare, 0);
    }
}

#[test]
fn full(rt: HostRuntime) -> Result<(), Fail> {
    for (size, limit) in [(2, 1), (3, 3), (4, 6), (7, 21), (64, 2016), (256, 32640)] {
        on_every_kind::<Filled>(&rt, rt.alloc(), narrow(size, limit))?;
    }
    Ok(())
}
