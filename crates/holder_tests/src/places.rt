// Detours at both ends of the coordinates.
use ranking::detour::{ByDetour, Place};
use ranking::{ByNumber, Ranking};

#[test]
fn extremes(rt: HostRuntime) {
    let low = Place {
        x: i32::MIN,
        y: i32::MIN,
    };
    let high = Place {
        x: i32::MAX,
        y: i32::MAX,
    };
    assert_eq!(rt; low.distance(high), 8589934590);
    assert_eq!(rt; high.distance(low), 8589934590);
    assert_eq!(rt; low.distance(Place::ORIGIN), 4294967296);
    let places = [low, high];
    let ranking = ByDetour::new(&places);
    // a load without a place is at 0, 0, which lies nearer to the high end
    assert_eq!(rt; ranking.detour(1, 2), 4294967294);
    assert!(rt; ranking.comes_first(0, 2, 1));
    assert!(rt; !ranking.comes_first(0, 1, 2));
    // loads 2 and 3 are both at 0, 0: the lower number comes first
    assert!(rt; ranking.comes_first(0, 2, 3));
}

#[test]
fn numbers(rt: HostRuntime) {
    assert!(rt; ByNumber.comes_first(7, 2, 3));
    assert!(rt; !ByNumber.comes_first(7, 3, 2));
    assert!(rt; !ByNumber.comes_first(7, 3, 3));
}
