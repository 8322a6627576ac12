//! The members of a set in rising order, each found as the next one.
ghost use Rattle.std.specs.Prelude.{◌≡◌, ℕ, ◌-◌, Bool};
ghost use Rattle.std.specs.Iterator.{at_most};
ghost use Rattle.graph.specs.Graph.{Next};
ghost use Rattle.links.specs.InOrder.{GivesNext, Over};

use crate::Links;

/// A set of numbers of which the next at or above another can be asked for. What the answers say
/// holds of every value that came from its making; a call is safe and ends on any other too.
pub trait NextMember {
    /// The numbers that are in the set.
    ghost member: { Self → ℕ → Bool };

    /// The value came from its making.
    ghost reliable: { Self → Type 0 };

    /// The smallest member at or above `from`; `None` where there is none.
    fn next_from(&self, from: usize) -> Option<usize>
        ensures { reliable self.now → Next (member self.now) from result };
}

/// The loads that are linked to a load.
#[derive(Clone, Copy, Debug)]
pub struct LinkedTo<'a, L> {
    links: &'a L,
    load: usize,
}

impl<L: Links> NextMember for LinkedTo<'_, L> {
    ghost member = { λ s. (L.Links.graph s.links.now).linked s.load };

    ghost reliable = { λ s. L.Links.made s.links.now };

    fn next_from(&self, from: usize) -> Option<usize> {
        self.links.next_linked(self.load, from)
    }
}

/// The members of a set from a number on and below another, in rising order.
#[derive(Debug, Drop)]
pub struct MembersInOrder<S> {
    set: S,
    from: usize,
    end: usize,
}

impl<S: NextMember> MembersInOrder<S> {
    /// The members of the set at or above `from` and below `end`.
    pub fn new(set: S, from: usize, end: usize) -> MembersInOrder<S>
        ensures { result ≡ record { set = set; from = from; end = end } }
    {
        MembersInOrder { set, from, end }
    }
}

impl<S: NextMember + Drop> Iterator for MembersInOrder<S> {
    type Item = usize;

    ghost next_gives = { GivesNext S.NextMember.reliable S.NextMember.member };

    ghost remaining = { λ s. at_most (s.end - s.from) };

    fn next(&mut self) -> Option<usize> {
        match self.set.next_from(self.from) {
            Some(x) if self.from <= x && x < self.end => {
                self.from = x + 1;
                Some(x)
            }
            _ => None,
        }
    }
}

/// The loads below `end` that are linked to a, in rising order. Each step asks for the next linked load
/// once.
pub fn linked_loads<L: Links>(links: &L, a: usize, end: usize) -> MembersInOrder<LinkedTo<'_, L>>
    ensures over { Over links.now a end result }
    ensures begins { result.from ≡ 0 }
{
    linked_loads_from(links, a, 0, end)
}

/// The same, at or above `from`.
pub fn linked_loads_from<L: Links>(
    links: &L,
    a: usize,
    from: usize,
    end: usize,
) -> MembersInOrder<LinkedTo<'_, L>>
    ensures over { Over links.now a end result }
    ensures begins { result.from ≡ from }
{
    MembersInOrder::new(LinkedTo { links, load: a }, from, end)
}
