// Filters: which pairs they bar, and what they hide of every kind of book.
use crate::kinds::{BookTest, narrow, on_every_kind};
use bit_matrix::BitMatrix;
use book_kinds::Shape;
use class_filter::ClassFilter;
use links::{Book, Layer, Links, Refusal};
use std::process::Abort;
use std::test::Fail;

// Every pattern that bars one pair of classes, against a plain table: byte i has bit j set, or byte
// j has bit i.
#[test]
fn barred_classes(rt: HostRuntime) {
    for i in 0..8 {
        for j in 0..8 {
            let mut words = [0u64; 9];
            let mut bars = [0u8; 8];
            bars[i] = 1 << j;
            let below = BitMatrix::new(9, 36, &mut words);
            let book = ClassFilter::new(below, &[0, 1, 2, 3, 4, 5, 6, 7, 255], bars);
            for a in 0..9 {
                for b in 0..9 {
                    let x = a.min(7);
                    let y = b.min(7);
                    let expected = (x == i && y == j) || (x == j && y == i);
                    assert_eq!(rt; book.is_barred(a, b), expected);
                }
            }
        }
    }
}

// A pair that is linked below and barred is hidden. 8 counts before 6 and 10.
struct LinksHidden;

impl BookTest for LinksHidden {
    fn run<B: Book + Drop>(rt: &impl Abort, mut below: B, _shape: Shape, spare: usize) {
        assert_eq!(rt; below.add(0, 1), Ok(()));
        assert_eq!(rt; below.add(0, 3), Ok(()));
        // classes 1 and 2 may not travel together; load 3 has class 0
        let mut book = ClassFilter::new(below, &[1, 2, 2], [0, 4, 0, 0, 0, 0, 0, 0]);
        assert_eq!(rt; book.linked(0, 1), false);
        assert_eq!(rt; book.add(0, 1), Err(Refusal::Barred.by(Layer::Book)));
        assert_eq!(rt; book.add(2, 0), Err(Refusal::Barred.by(Layer::Book)));
        assert_eq!(rt; book.remove(1, 0), Err(Refusal::NotLinked.by(Layer::Book)));
        assert_eq!(rt; book.degree(0), 1);
        assert_eq!(rt; book.next_linked(0, 0), Some(3));
        assert_eq!(rt; book.link_count(), 1);
        assert_eq!(rt; book.spare(0), spare.saturating_sub(2));
        assert_eq!(rt; book.room(), 0);
        assert_eq!(rt; book.is_barred(0, 4), false);
        assert_eq!(rt; book.add(1, 2), Err(Refusal::BookFull.by(Layer::Book)));
        assert_eq!(rt; book.remove(3, 0), Ok(()));
        assert_eq!(rt; book.add(1, 2), Ok(()));
        assert_eq!(rt; book.into_below().linked(1, 0), true);
    }
}

#[test]
fn hidden_links(rt: HostRuntime) -> Result<(), Fail> {
    on_every_kind::<LinksHidden>(&rt, rt.alloc(), narrow(4, 2))
}

// The same where the book below has room for every link.
#[test]
fn hidden_links_with_room(rt: HostRuntime) {
    let mut words = [0u64; 4];
    let mut below = BitMatrix::new(4, 6, &mut words);
    assert_eq!(rt; below.add(0, 1), Ok(()));
    assert_eq!(rt; below.add(0, 3), Ok(()));
    let mut book = ClassFilter::new(below, &[1, 2, 2], [0, 4, 0, 0, 0, 0, 0, 0]);
    assert_eq!(rt; book.linked(0, 1), false);
    assert_eq!(rt; book.add(0, 1), Err(Refusal::Barred.by(Layer::Book)));
    assert_eq!(rt; book.remove(1, 0), Err(Refusal::NotLinked.by(Layer::Book)));
    assert_eq!(rt; book.degree(0), 1);
    assert_eq!(rt; book.next_linked(0, 0), Some(3));
    assert_eq!(rt; book.link_count(), 1);
    assert_eq!(rt; book.spare(0), 1);
    assert_eq!(rt; book.is_barred(0, 4), false);
    assert_eq!(rt; book.add(1, 2), Ok(()));
}
