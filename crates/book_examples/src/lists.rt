//! What a caller can prove of link lists, and of audits over them, from the contracts alone.
ghost use Rattle.std.specs.Prelude.{◌≡◌, true, false, Some, None, Ok, [], ◌∷◌};
ghost use Rattle.audit.specs.declared.Verdict.TheVariants.{Sound, PathOfThree};

use audit::{NO_PARTNER, Verdict, audit};
use link_list::{Entry, LinkList};
use links::{Links, Refused};

// The links 0-1, 0-3 and 1-3.
const TRIANGLE: [Entry; 3] = [
    Entry { a: 0, b: 1 },
    Entry { a: 0, b: 3 },
    Entry { a: 1, b: 3 },
];

// The links 0-1, 1-2 and 2-3.
const PATH: [Entry; 3] = [
    Entry { a: 0, b: 1 },
    Entry { a: 1, b: 2 },
    Entry { a: 2, b: 3 },
];

/// Five loads with the links 0-1, 0-3 and 1-3: how many loads and how many links the list has.
pub fn counts() -> (usize, usize)
    ensures { result ≡ (5, 3) }
{
    let list = LinkList::new(5, &TRIANGLE);
    (list.size(), list.link_count())
}

/// A list that the check refuses, since no load is 3: it has no loads and no links.
pub fn refused_counts() -> (usize, usize)
    ensures { result ≡ (0, 0) }
{
    let list = LinkList::new(3, &TRIANGLE);
    (list.size(), list.link_count())
}

/// The same five loads: a link is there in both directions, others are not, nor any of a number
/// that is no load.
pub fn linked() -> [bool; 7]
    ensures { result ≡ true ∷ true ∷ false ∷ false ∷ false ∷ false ∷ false ∷ [] }
{
    let list = LinkList::new(5, &TRIANGLE);
    [
        list.linked(0, 3),
        list.linked(3, 0),
        list.linked(2, 0),
        list.linked(3, 4),
        list.linked(0, 0),
        list.linked(0, 5),
        list.linked(5, 0),
    ]
}

/// How many links each of these has: the lower end of its links, one that is lower and higher end,
/// a higher end, a load without links, and a number that is no load.
pub fn degrees() -> [usize; 5]
    ensures { result ≡ 2 ∷ 2 ∷ 2 ∷ 0 ∷ 0 ∷ [] }
{
    let list = LinkList::new(5, &TRIANGLE);
    [
        list.degree(0),
        list.degree(1),
        list.degree(3),
        list.degree(4),
        list.degree(5),
    ]
}

/// The next load linked to 0 at or above 0, 2 and 4; linked to 3 at or above 0 and 1; linked to a
/// load without links, and to a number that is no load.
pub fn next_linked() -> [Option<usize>; 7]
    ensures { result ≡ Some 1 ∷ Some 3 ∷ None ∷ Some 0 ∷ Some 1 ∷ None ∷ None ∷ [] }
{
    let list = LinkList::new(5, &TRIANGLE);
    [
        list.next_linked(0, 0),
        list.next_linked(0, 2),
        list.next_linked(0, 4),
        list.next_linked(3, 0),
        list.next_linked(3, 1),
        list.next_linked(2, 0),
        list.next_linked(5, 0),
    ]
}

/// Four loads with the links 0-1, 1-2 and 2-3, of which only 1 and 2 claim each other: the audit
/// finds the augmenting path 0, 1, 2, 3.
pub fn audit_middle_pair() -> Result<Verdict, Refused>
    ensures { result ≡ Ok (PathOfThree (0, 1, 2, 3)) }
{
    let list = LinkList::new(4, &PATH);
    audit(&list, &[NO_PARTNER, 2, 1, NO_PARTNER])
}

/// The same links, where 0 and 1 claim each other, and 2 and 3: the claims are sound.
pub fn audit_outer_pairs() -> Result<Verdict, Refused>
    ensures { result ≡ Ok Sound }
{
    let list = LinkList::new(4, &PATH);
    audit(&list, &[1, 0, 3, 2])
}
