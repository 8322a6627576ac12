//! What can be asked of links, what a book of links can change, the checks that every book makes,
//! the tally of a book, the linked loads in order, and the refusals.
#![tactic(auto)]

ghost use Rattle.std.specs.Prelude.{◌≡◌, None};
ghost use Rattle.graph.specs.Graph.{Graph, Simple, degree, link_count, Next};
ghost use Rattle.links.specs.Books.{Ledger, Bounded, Adds, Removes, unless_within, unless_size};
ghost use Rattle.links.specs.Books.{unless_limit, unless_two_of, unless_open, unless_spares};
ghost use Rattle.links.specs.Books.{unless_room, removing};
ghost use Rattle.links.specs.Refusals.{Answers, told_by};

pub mod members;
mod refusal;
mod tally;

pub use graph::MOST_LOADS;
pub use refusal::{Layer, Refusal, Refused};
pub use tally::Tally;

/// The highest limit that a book can have: 32,640, a link for each two of 256 loads.
pub const MOST_LINKS: usize = MOST_LOADS * (MOST_LOADS - 1) / 2;

/// What a book has left for one link: how many links each of its loads may still take, and how
/// many the book may.
#[derive(Clone, Copy, PartialEq, Eq, Debug)]
pub struct Allowance {
    /// The spare of the one load.
    pub spare_a: usize,
    /// The spare of the other.
    pub spare_b: usize,
    /// The room of the book.
    pub room: usize,
}

/// Links between loads, which are the numbers below a size of at most 256. What the answers say
/// holds of every value that came from its making; a call is safe and ends on any other too.
pub trait Links {
    /// The set of links that the value stands for.
    ghost graph: { Self → Graph };

    /// The value came from its making, and from there by its own calls.
    ghost made: { Self → Type 0 };

    /// The number of loads: 1 to 256, or 0 where the making was refused.
    fn size(&self) -> usize
        ensures value { made self.now → result ≡ (graph self.now).size }
        ensures simple { made self.now → Simple (graph self.now) };

    /// Whether a and b are linked. No load is linked to itself, and no number past the loads to
    /// any.
    fn linked(&self, a: usize, b: usize) -> bool
        ensures { made self.now → result ≡ (graph self.now).linked a b };

    /// The number of links of a; 0 for a number past the loads.
    fn degree(&self, a: usize) -> usize
        ensures { made self.now → result ≡ degree (graph self.now) a };

    /// The smallest load at or above `from` that is linked to a; `None` where there is none.
    fn next_linked(&self, a: usize, from: usize) -> Option<usize>
        ensures { made self.now → Next ((graph self.now).linked a) from result };

    /// The number of links, each counted once.
    fn link_count(&self) -> usize
        ensures { made self.now → result ≡ link_count (graph self.now) };
}

/// Links that can be changed too, within a limit. A refused call leaves the book as it was.
pub trait Book: Links {
    /// The limit, the barred pairs, the spares and the room.
    ghost ledger: { Self → Ledger };

    /// The type of what no call changes.
    ghost Fixed: { Type 0 };

    /// What no call changes, on any value: of lent memory whose it is, how long, and what lies past
    /// the need.
    ghost fixed: { Self → Fixed };

    /// The most links that the book ever has: 1 to 32,640, or 0 where the making was refused.
    fn limit(&self) -> usize
        ensures value { Self.Links.made self.now → result ≡ (ledger self.now).limit }
        ensures bounded { Self.Links.made self.now →
            Bounded (Self.Links.graph self.now) (ledger self.now) };

    /// Whether the book never links a and b. The same for b and a.
    fn is_barred(&self, a: usize, b: usize) -> bool
        ensures { Self.Links.made self.now → result ≡ (ledger self.now).barred a b };

    /// How many more links a may take; 0 for a number past the loads.
    fn spare(&self, a: usize) -> usize
        ensures { Self.Links.made self.now → result ≡ (ledger self.now).spare a };

    /// How many more links the book may take.
    fn room(&self) -> usize
        ensures { Self.Links.made self.now → result ≡ (ledger self.now).room };

    /// Links a and b. Refuses as the book with the first of these that holds: one of them is not a
    /// load (4), they are the same (5), barred (8), linked already (6), either has no spare (9),
    /// the book has no room (10).
    fn add(&mut self, a: usize, b: usize) -> Result<(), Refused>
        ensures adds { Adds Self.Links.graph Self.Links.made ledger
            self.old a b result self.new }
        ensures stays { fixed self.new ≡ fixed self.old };

    /// Unlinks a and b. Refuses as the book with the first of these that holds: one of them is not
    /// a load (4), they are the same (5), not linked (7).
    fn remove(&mut self, a: usize, b: usize) -> Result<(), Refused>
        ensures removes { Removes Self.Links.graph Self.Links.made ledger
            self.old a b result self.new }
        ensures stays { fixed self.new ≡ fixed self.old };
}

/// Whether n is one of the numbers from 1 to `most`; a book refuses any other by this refusal.
pub fn check_within(n: usize, most: usize, refusal: Refusal) -> Result<(), Refused>
    ensures { Answers (unless_within most (told_by refusal Layer.Book) n None)
        result (λ _. Unit {0}) }
{
    if (1..=most).contains(&n) {
        Ok(())
    } else {
        Err(refusal.by(Layer::Book))
    }
}

/// Whether there can be so many loads: a book refuses with 1 unless they are 1 to 256.
pub fn check_size(size: usize) -> Result<(), Refused>
    ensures most { MOST_LOADS ≡ 256 }
    ensures answers { Answers (unless_size size None) result (λ _. Unit {0}) }
{
    check_within(size, MOST_LOADS, Refusal::SizeOutOfRange)
}

/// Whether a book can have this limit: it refuses with 2 unless that is 1 to 32,640.
pub fn check_limit(limit: usize) -> Result<(), Refused>
    ensures most { MOST_LINKS ≡ 32640 }
    ensures answers { Answers (unless_limit limit None) result (λ _. Unit {0}) }
{
    check_within(limit, MOST_LINKS, Refusal::LimitOutOfRange)
}

/// Whether a and b are two of `size` loads: the layer refuses with 4 where one is not below the
/// size, and then with 5 where they are the same.
pub fn check_two(size: usize, a: usize, b: usize, layer: Layer) -> Result<(), Refused>
    ensures { Answers (unless_two_of layer size a b None) result (λ _. Unit {0}) }
{
    if a >= size || b >= size {
        return Err(Refusal::NoSuchLoad.by(layer));
    }
    if a == b {
        return Err(Refusal::SameLoad.by(layer));
    }
    Ok(())
}

/// Whether a and b are open to a new link: a book refuses with 4 or 5 unless they are two of the
/// loads, then with 8 where the pair is barred, then with 6 where they are linked already. What is
/// left for the link is to be asked next.
pub fn check_open<L: Links>(links: &L, a: usize, b: usize, barred: bool) -> Result<(), Refused>
    ensures { L.Links.made links.now →
        Answers (unless_open (L.Links.graph links.now) barred a b None) result (λ _. Unit {0}) }
{
    check_two(links.size(), a, b, Layer::Book)?;
    if barred {
        return Err(Refusal::Barred.by(Layer::Book));
    }
    if links.linked(a, b) {
        return Err(Refusal::AlreadyLinked.by(Layer::Book));
    }
    Ok(())
}

/// Whether something is left for a new link: a book refuses with 9 where either load has no spare,
/// and then with 10 where there is no room.
pub fn check_left(allowance: Allowance) -> Result<(), Refused>
    ensures { Answers
        (unless_spares allowance.spare_a allowance.spare_b (unless_room allowance.room None))
        result (λ _. Unit {0}) }
{
    if allowance.spare_a == 0 || allowance.spare_b == 0 {
        return Err(Refusal::LoadFull.by(Layer::Book));
    }
    check_room(allowance.room)
}

/// Whether a book with this room can take a new link: it refuses with 10 where that is 0.
pub fn check_room(room: usize) -> Result<(), Refused>
    ensures { Answers (unless_room room None) result (λ _. Unit {0}) }
{
    if room == 0 {
        Err(Refusal::BookFull.by(Layer::Book))
    } else {
        Ok(())
    }
}

/// Whether a and b can be unlinked: a book refuses with 4 or 5 unless they are two of the loads,
/// and then with 7 where they are not linked.
pub fn check_remove<L: Links>(links: &L, a: usize, b: usize) -> Result<(), Refused>
    ensures { L.Links.made links.now →
        Answers (removing (L.Links.graph links.now) a b) result (λ _. Unit {0}) }
{
    check_two(links.size(), a, b, Layer::Book)?;
    if links.linked(a, b) {
        Ok(())
    } else {
        Err(Refusal::NotLinked.by(Layer::Book))
    }
}
