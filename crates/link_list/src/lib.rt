//! Links in a list of entries that the caller lends. They can be asked for, and not changed.
#![tactic(auto)]

ghost use Rattle.std.specs.Prelude.{◌≡◌, length};
ghost use Rattle.graph.specs.Graph.{lowest_passing};
ghost use Rattle.links.specs.Refusals.{Answers};
ghost use Rattle.link_list.specs.Entries.{in_bounds, joins, next_joined, touches, lower_of};
ghost use Rattle.link_list.specs.Entries.{EntriesOrdered, out_of_bounds};
ghost use Rattle.link_list.specs.Lists.{list_graph, ListMade, checking, Sound, Listing};

use links::{Layer, Links, Refusal, Refused, check_size};
use strict_order::first_unordered;

/// The link of the loads a and b, where a is the lower one. Entries are ordered by a, and then by
/// b.
#[derive(Clone, Copy, PartialEq, Eq, PartialOrd, Ord, Debug)]
pub struct Entry {
    /// The lower load.
    pub a: u16,
    /// The higher load.
    pub b: u16,
}

impl Entry {
    // Whether a < b < size.
    fn is_in_bounds(&self, size: usize) -> bool
        ensures { result ≡ in_bounds size self.now }
    {
        self.a < self.b && usize::from(self.b) < size
    }

    // Whether the entry is the link of x and y, in either order.
    fn joins(&self, x: usize, y: usize) -> bool
        ensures { result ≡ joins self.now x y }
    {
        let a = usize::from(self.a);
        let b = usize::from(self.b);
        (a == x && b == y) || (a == y && b == x)
    }

    fn touches(&self, x: usize) -> bool
        ensures { result ≡ touches self.now x }
    {
        usize::from(self.a) == x || usize::from(self.b) == x
    }

    // The load at or above `from` that the entry links to x.
    fn linked_to(&self, x: usize, from: usize) -> Option<usize>
        ensures { result ≡ next_joined self.now x from }
    {
        let a = usize::from(self.a);
        let b = usize::from(self.b);
        if a == x && b >= from {
            Some(b)
        } else if b == x && a >= from {
            Some(a)
        } else {
            None
        }
    }
}

// The lower of two numbers, or the one that there is.
fn lower(x: Option<usize>, y: Option<usize>) -> Option<usize>
    ensures { result ≡ lower_of x y }
{
    x.into_iter().chain(y).min()
}

fn first_out_of_bounds(size: usize, entries: &[Entry]) -> Option<usize>
    ensures { result ≡ lowest_passing (length entries.now) (out_of_bounds size entries.now) }
{
    entries.iter().position(|link| !link.is_in_bounds(size))
}

/// The links of the loads below a size, as entries that rise strictly.
#[derive(Clone, Copy, Debug)]
pub struct LinkList<'a> {
    size: usize,
    entries: &'a [Entry],
}

impl<'a> LinkList<'a> {
    /// Whether a list can be made of these entries, for the loads below `size`. The book refuses a
    /// size that is not 1 to 256 with 1. Then it refuses with 15, and the index of it, the first
    /// entry that does not come after the entry before it, or has not a < b < size. Looks at every
    /// entry, and changes nothing.
    pub fn check(size: usize, entries: &[Entry]) -> Result<(), Refused>
        ensures { Answers (checking size entries.now) result (λ _. Sound size entries.now) }
    {
        check_size(size)?;
        match lower(first_unordered(entries), first_out_of_bounds(size, entries)) {
            Some(index) => Err(Refusal::BadEntry(index).by(Layer::Book)),
            None => Ok(()),
        }
    }

    /// The list of these entries, which are not copied. Where `check` would refuse them, the list
    /// has no loads and no entries.
    pub fn new(size: usize, entries: &'a [Entry]) -> LinkList<'a>
        ensures made { ListMade result }
        ensures listing { Listing (checking size entries.now) size entries.now result }
    {
        match LinkList::check(size, entries) {
            Ok(()) => LinkList { size, entries },
            Err(_) => LinkList {
                size: 0,
                entries: &[],
            },
        }
    }
}

impl Links for LinkList<'_> {
    ghost graph = { list_graph };

    ghost made = { ListMade };

    fn size(&self) -> usize {
        self.size
    }

    /// Whether a and b are linked. Looks at the entries up to that link.
    fn linked(&self, a: usize, b: usize) -> bool {
        self.entries.iter().any(|link| link.joins(a, b))
    }

    /// The number of links of a. Looks at every entry.
    fn degree(&self, a: usize) -> usize {
        self.entries.iter().filter(|link| link.touches(a)).count()
    }

    /// The smallest load at or above `from` that is linked to a. Looks at every entry.
    fn next_linked(&self, a: usize, from: usize) -> Option<usize> {
        self.entries
            .iter()
            .filter_map(|link| link.linked_to(a, from))
            .min()
    }

    /// The number of links, which is that of the entries.
    fn link_count(&self) -> usize {
        self.entries.len()
    }
}

/// The order of entries is strict and total: of two that are not equal, exactly one comes first.
pub fn entries_are_ordered()
    ensures { EntriesOrdered }
{}
