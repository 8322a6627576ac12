// The memory of a bit matrix, and its refusals in turn.
use bit_matrix::BitMatrix;
use links::{Book, Layer, Links, Refusal};

// A row has a word for each 64 loads begun.
#[test]
fn memory(rt: HostRuntime) {
    let words = [0u64; 1024];
    for (size, need) in [
        (1, 1),
        (64, 64),
        (65, 130),
        (128, 256),
        (129, 387),
        (256, 1024),
    ] {
        assert_eq!(rt; BitMatrix::check(size, 1, &words[0..need]), Ok(()));
        assert_eq!(rt;
            BitMatrix::check(size, 1, &words[0..need - 1]),
            Err(Refusal::WrongLength.by(Layer::Book))
        );
    }
}

// What a making leaves in the memory, and a link in both directions.
#[test]
fn layout(rt: HostRuntime) {
    let mut words = [7u64; 132];
    let mut book = BitMatrix::new(65, 5, &mut words);
    assert_eq!(rt; book.add(1, 64), Ok(()));
    assert_eq!(rt; book.spare(1), 63);
    assert_eq!(rt; book.room(), 4);
    assert_eq!(rt; book.next_linked(1, 0), Some(64));
    assert_eq!(rt; book.next_linked(64, 2), None);
    // load 64 is bit 0 of word 1 × 2 + 1, and load 1 is bit 1 of word 64 × 2
    for (i, word) in words.iter().enumerate() {
        let expected = match i {
            3 => 1,
            128 => 2,
            130 | 131 => 7,
            _ => 0,
        };
        assert_eq!(rt; *word, expected);
    }
}

// Longer memory is taken. A making in too little of it has no loads, and touches nothing.
#[test]
fn makings(rt: HostRuntime) {
    let words = [0u64; 1024];
    for size in [1, 64, 65] {
        assert_eq!(rt; BitMatrix::check(size, 1, &words), Ok(()));
    }
    let mut words = [7u64; 2];
    let mut book = BitMatrix::new(3, 5, &mut words);
    assert_eq!(rt; book.size(), 0);
    assert_eq!(rt; book.limit(), 0);
    assert_eq!(rt; book.add(0, 1), Err(Refusal::NoSuchLoad.by(Layer::Book)));
    assert_eq!(rt; words, [7, 7]);
}

// Four loads, and room for one link.
#[test]
fn refusals(rt: HostRuntime) {
    let mut words = [0u64; 4];
    let mut book = BitMatrix::new(4, 1, &mut words);
    assert_eq!(rt; book.add(0, 4), Err(Refusal::NoSuchLoad.by(Layer::Book)));
    assert_eq!(rt; book.add(4, 4), Err(Refusal::NoSuchLoad.by(Layer::Book)));
    assert_eq!(rt; book.add(2, 2), Err(Refusal::SameLoad.by(Layer::Book)));
    assert_eq!(rt; book.remove(0, 1), Err(Refusal::NotLinked.by(Layer::Book)));
    assert_eq!(rt; book.add(0, 1), Ok(()));
    assert_eq!(rt; book.add(1, 0), Err(Refusal::AlreadyLinked.by(Layer::Book)));
    assert_eq!(rt; book.add(2, 3), Err(Refusal::BookFull.by(Layer::Book)));
    assert_eq!(rt; book.remove(1, 1), Err(Refusal::SameLoad.by(Layer::Book)));
    assert_eq!(rt; book.remove(1, 9), Err(Refusal::NoSuchLoad.by(Layer::Book)));
    assert_eq!(rt; book.link_count(), 1);
    assert_eq!(rt; book.remove(1, 0), Ok(()));
    assert_eq!(rt; book.add(2, 3), Ok(()));
    assert!(rt; !book.is_barred(2, 3));
}
