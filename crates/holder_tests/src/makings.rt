// The makings of every kind of book.
use crate::kinds::{SIZES, check_past, roomy};
use book_kinds::{BookKind, Shape, each_kind_of_book};
use links::{Layer, Refusal};
use std::alloc::Global;
use std::process::Abort;
use std::test::Fail;

// Sizes and limits that no book has. The size counts first.
const REFUSED: [(usize, usize, Refusal); 9] = [
    (0, 1, Refusal::SizeOutOfRange),
    (257, 1, Refusal::SizeOutOfRange),
    (usize::MAX, 1, Refusal::SizeOutOfRange),
    (usize::MAX, usize::MAX, Refusal::SizeOutOfRange),
    (0, 0, Refusal::SizeOutOfRange),
    (1, 0, Refusal::LimitOutOfRange),
    (256, 0, Refusal::LimitOutOfRange),
    (256, 32641, Refusal::LimitOutOfRange),
    (256, usize::MAX, Refusal::LimitOutOfRange),
];

// A making that the check refuses leaves a book without loads, and with limit 0.
fn refuse<'a, K: BookKind<'a>>(
    rt: &impl Abort,
    memory: &'a mut [K::Cell],
    shape: Shape,
    refusal: Refusal,
) {
    assert_eq!(rt; K::check(shape, memory), Err(refusal.by(Layer::Book)));
    let mut book = K::make(shape, memory);
    assert_eq!(rt; book.size(), 0);
    assert_eq!(rt; book.limit(), 0);
    assert_eq!(rt; book.link_count(), 0);
    assert_eq!(rt; book.add(0, 1), Err(Refusal::NoSuchLoad.by(Layer::Book)));
}

// A book needs just so much memory.
fn need<'a, K: BookKind<'a>>(rt: &impl Abort, memory: &'a mut [K::Cell], size: usize) {
    let need = K::need(roomy(size));
    assert!(rt; 0 < need && need <= memory.len());
    assert_eq!(rt; K::check(roomy(size), &memory[..need]), Ok(()));
    let short = &mut memory[..need - 1];
    refuse::<K>(rt, short, roomy(size), Refusal::WrongLength);
}

macro_rules! refuse_on_kind {
    ($kind:ty, ($rt:ident, $alloc:ident)) => {
        let noise = <$kind as BookKind>::noise();
        let most = <$kind as BookKind>::need(roomy(256));
        let mut memory = vec![in $alloc; noise; most]?;
        for (size, limit, refusal) in REFUSED {
            let shape = Shape {
                size,
                row_limit: 1,
                limit,
            };
            refuse::<$kind>($rt, &mut memory, shape, refusal);
            refuse::<$kind>($rt, &mut [], shape, refusal);
        }
        for size in SIZES {
            need::<$kind>($rt, &mut memory, size);
        }
        check_past($rt, &memory, 0, &noise);
    };
}

// Nothing was written to the memory.
fn refuse_everywhere(rt: &impl Abort, alloc: Global) -> Result<(), Fail> {
    each_kind_of_book!(refuse_on_kind(rt, alloc));
    Ok(())
}

#[test]
fn refused(rt: HostRuntime) -> Result<(), Fail> {
    refuse_everywhere(&rt, rt.alloc())
}
