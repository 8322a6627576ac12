// The audit's verdicts.
use audit::{NO_PARTNER, Verdict, audit};
use bit_matrix::BitMatrix;
use links::{Book, Layer, Refusal};

// A table of claims is as long as there are loads.
#[test]
fn lengths(rt: HostRuntime) {
    let mut words = [0u64; 4];
    let book = BitMatrix::new(4, 9, &mut words);
    let refused = Err(Refusal::WrongLength.by(Layer::Board));
    assert_eq!(rt; audit(&book, &[NO_PARTNER; 3]), refused);
    assert_eq!(rt; audit(&book, &[NO_PARTNER; 5]), refused);
    assert_eq!(rt; audit(&book, &[NO_PARTNER; 4]), Ok(Verdict::Sound));
}

// The loads 0 to 3 in a row.
#[test]
fn verdicts(rt: HostRuntime) {
    let mut words = [0u64; 4];
    let mut book = BitMatrix::new(4, 9, &mut words);
    for a in 0..3 {
        assert_eq!(rt; book.add(a, a + 1), Ok(()));
    }
    let cases = [
        (
            [NO_PARTNER, 2, 1, NO_PARTNER],
            Verdict::PathOfThree((0, 1, 2, 3)),
        ),
        ([NO_PARTNER, NO_PARTNER, 3, 2], Verdict::PathOfOne((0, 1))),
        (
            [NO_PARTNER, 0, NO_PARTNER, NO_PARTNER],
            Verdict::NotReturned(1),
        ),
        (
            [4, NO_PARTNER, NO_PARTNER, NO_PARTNER],
            Verdict::NotReturned(0),
        ),
        ([2, NO_PARTNER, 0, NO_PARTNER], Verdict::NotLinked(0)),
        ([0, 2, 1, NO_PARTNER], Verdict::NotLinked(0)),
        ([1, 0, 3, 2], Verdict::Sound),
        // a fault of an earlier kind counts before a lower load
        ([3, NO_PARTNER, 1, 0], Verdict::NotReturned(2)),
    ];
    for (claims, verdict) in cases {
        assert_eq!(rt; audit(&book, &claims), Ok(verdict));
    }
}

// Two free loads linked to both ends of one pair: a path ends at another load than it began.
#[test]
fn triangle(rt: HostRuntime) {
    let mut words = [0u64; 3];
    let mut book = BitMatrix::new(3, 9, &mut words);
    assert_eq!(rt; book.add(0, 1), Ok(()));
    assert_eq!(rt; book.add(1, 2), Ok(()));
    assert_eq!(rt; book.add(0, 2), Ok(()));
    assert_eq!(rt; audit(&book, &[NO_PARTNER, 2, 1]), Ok(Verdict::Sound));
}
