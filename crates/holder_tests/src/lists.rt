// Link lists, and what they refuse.
use link_list::{Entry, LinkList};
use links::{Layer, Links, Refusal};

#[test]
fn answers(rt: HostRuntime) {
    let entries = [
        Entry { a: 0, b: 1 },
        Entry { a: 0, b: 3 },
        Entry { a: 1, b: 2 },
        Entry { a: 1, b: 2 },
    ];
    assert_eq!(rt; LinkList::check(4, &[]), Ok(()));
    assert_eq!(rt;
        LinkList::check(0, &entries),
        Err(Refusal::SizeOutOfRange.by(Layer::Book))
    );
    assert_eq!(rt;
        LinkList::check(257, &[]),
        Err(Refusal::SizeOutOfRange.by(Layer::Book))
    );
    // the last entry does not rise; with three loads the second is out of bounds
    assert_eq!(rt;
        LinkList::check(4, &entries),
        Err(Refusal::BadEntry(3).by(Layer::Book))
    );
    assert_eq!(rt;
        LinkList::check(3, &entries),
        Err(Refusal::BadEntry(1).by(Layer::Book))
    );
    let refused = LinkList::new(4, &entries);
    assert_eq!(rt; refused.size(), 0);
    assert_eq!(rt; refused.link_count(), 0);
    let list = LinkList::new(4, &entries[0..3]);
    assert_eq!(rt; list.linked(3, 0), true);
    assert_eq!(rt; list.degree(1), 2);
    assert_eq!(rt; list.next_linked(2, 0), Some(1));
    assert_eq!(rt; list.next_linked(0, 2), Some(3));
}
