// The row limit of sorted rows, their memory, and full rows.
use links::{Book, Layer, Links, Refusal};
use sorted_rows::SortedRows;
use std::test::Fail;

#[test]
fn limits(rt: HostRuntime) {
    let numbers = [0u16; 65536];
    assert_eq!(rt; SortedRows::check(256, 255, 32640, &numbers), Ok(()));
    assert_eq!(rt;
        SortedRows::check(256, 255, 32640, &numbers[0..65535]),
        Err(Refusal::WrongLength.by(Layer::Book))
    );
    assert_eq!(rt;
        SortedRows::check(257, 0, 0, &numbers),
        Err(Refusal::SizeOutOfRange.by(Layer::Book))
    );
    for (row_limit, limit) in [(0, 1), (256, 1), (1, 0), (1, 32641)] {
        assert_eq!(rt;
            SortedRows::check(1, row_limit, limit, &[]),
            Err(Refusal::LimitOutOfRange.by(Layer::Book))
        );
    }
    assert_eq!(rt;
        SortedRows::check(3, 1, 3, &numbers[0..5]),
        Err(Refusal::WrongLength.by(Layer::Book))
    );
}

// A row holds its count, the loads in rising order, and zeros.
#[test]
fn layout(rt: HostRuntime) {
    let mut numbers = [9u16; 14];
    let mut book = SortedRows::new(4, 2, 5, &mut numbers);
    assert_eq!(rt; book.add(0, 3), Ok(()));
    assert_eq!(rt; book.add(1, 0), Ok(()));
    assert_eq!(rt; book.add(0, 2), Err(Refusal::LoadFull.by(Layer::Book)));
    assert_eq!(rt; book.remove(2, 1), Err(Refusal::NotLinked.by(Layer::Book)));
    assert_eq!(rt; book.next_linked(0, 2), Some(3));
    assert_eq!(rt; book.row_break(0), None);
    assert_eq!(rt; numbers, [2, 1, 3, 1, 0, 0, 0, 0, 0, 1, 0, 0, 9, 9]);
}

// Every pair of 256 loads, each added with the lower load first, in rows of 255.
#[test]
fn full_rows(rt: HostRuntime) -> Result<(), Fail> {
    let mut numbers = vec![in rt.alloc(); 0u16; 65536]?;
    let mut book = SortedRows::new(256, 255, 32640, &mut numbers);
    for b in 0..256 {
        for a in 0..b {
            assert_eq!(rt; book.add(a, b), Ok(()));
        }
    }
    assert_eq!(rt; book.link_count(), 32640);
    assert_eq!(rt; book.room(), 0);
    for a in 0..256 {
        assert_eq!(rt; book.degree(a), 255);
        assert_eq!(rt; book.spare(a), 0);
        assert_eq!(rt; book.row_break(a), None);
    }
    assert_eq!(rt; book.add(3, 4), Err(Refusal::AlreadyLinked.by(Layer::Book)));
    assert_eq!(rt; book.next_linked(4, 4), Some(5));
    Ok(())
}
