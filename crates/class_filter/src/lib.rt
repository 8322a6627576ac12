//! A book that hides the links between loads of barred classes.
#![tactic(auto)]

ghost use Rattle.std.specs.Prelude.{◌≡◌, ℕ, ◌<◌, ◌≤◌, false, OnOk, slice_index};
ghost use Rattle.graph.specs.Graph.{count};
ghost use Rattle.links.specs.Books.{Stands, Adds, Removes};
ghost use Rattle.links.specs.Refusals.{Answers};
ghost use Rattle.class_filter.specs.Classes.{class_of, hidden, filtered, filtered_ledger};
ghost use Rattle.class_filter.specs.Classes.{filter_graph, FilterMade, filter_ledger, FilterFixed};
ghost use Rattle.class_filter.specs.Classes.{filter_fixed, unless_visible, AddedBelow};
ghost use Rattle.class_filter.specs.Classes.{RemovedBelow};

use bits::bit_of;
use links::members::{linked_loads, linked_loads_from};
use links::{Book, Layer, Links, MOST_LOADS, Refusal, Refused, check_two};

/// A book with classes given to its loads, and some pairs of classes barred: the links of barred
/// classes are hidden, and none is added or removed. All else is asked of the book below, whose
/// limit, spares and room are those of the filter, hidden links counted.
#[derive(Debug, Drop)]
pub struct ClassFilter<B> {
    below: B,
    // the class of each load, where one above 7 counts as 7
    classes: [u8; MOST_LOADS],
    // classes i and j are barred where byte i has bit j set, or byte j has bit i set
    bars: [u8; 8],
}

// The first 256 of the classes given, then zeros.
fn class_table(classes: &[u8]) -> [u8; MOST_LOADS]
    ensures { (a : ℕ) → a < MOST_LOADS → slice_index result a ≡ slice_index classes.now a }
{
    let given = classes.len().min(MOST_LOADS);
    let mut table = [0; MOST_LOADS];
    table[0..given].copy_from_slice(&classes[0..given]);
    table
}

impl<B> ClassFilter<B> {
    // The class of a load.
    fn class(&self, a: usize) -> usize
        ensures value { result ≡ class_of self.now.classes a }
        ensures bound { result < 8 }
    {
        usize::from(self.classes.get(a).copied().unwrap_or(0).min(7))
    }

    // Whether the classes of the two loads are barred.
    #[tactic(auto, unfolding(crate::specs::Classes::bars_classes))]
    fn hidden(&self, a: usize, b: usize) -> bool
        ensures { result ≡ hidden self.now.classes self.now.bars a b }
    {
        let i = self.class(a);
        let j = self.class(b);
        bit_of(u64::from(self.bars[i]), j) || bit_of(u64::from(self.bars[j]), i)
    }
}

impl<B> ClassFilter<B> {
    /// Lets the filter go and gives the book below back, with the links that it has now, hidden
    /// ones among them.
    pub fn into_below(self) -> B
        ensures { result ≡ self.below }
    {
        self.below
    }
}

impl<B: Book> ClassFilter<B> {
    /// Gives each load the class at its place: one above 7 counts as 7, a load past the end of the
    /// slice has class 0, and classes past the 256th are of no load. Classes i and j are barred by
    /// bit j of byte i of `bars`, or bit i of byte j. Refuses nothing, and changes nothing below.
    pub fn new(below: B, classes: &[u8], bars: [u8; 8]) -> ClassFilter<B>
        ensures below { result.below ≡ below }
        ensures classes { (a : ℕ) → class_of result.classes a ≡ class_of classes.now a }
        ensures bars { result.bars ≡ bars }
        ensures stands { B.Links.made below →
            Stands (filter_graph B.Links.graph) (FilterMade B.Links.made)
            (filter_ledger B.Links.graph B.Book.ledger) result
            (filtered (hidden classes.now bars) (B.Links.graph below))
            (filtered_ledger (hidden classes.now bars) (B.Links.graph below).size
            (B.Book.ledger below)) }
    {
        ClassFilter {
            below,
            classes: class_table(classes),
            bars,
        }
    }

    // How many loads below `end` are linked to a by links that are not hidden.
    fn count_visible(&self, a: usize, end: usize) -> usize
        ensures bound { result ≤ end }
        ensures value { B.Links.made self.now.below →
            result ≡ count end ((filter_graph B.Links.graph self.now).linked a) }
    {
        linked_loads(&self.below, a, end)
            .filter(|b| !self.hidden(a, *b))
            .count()
    }

    // Whether a and b are two loads, and their link is not hidden: if it is, that is refused.
    fn check_visible(&self, a: usize, b: usize, refusal: Refusal) -> Result<(), Refused>
        ensures seen { OnOk result (hidden self.now.classes self.now.bars a b ≡ false) }
        ensures answers { B.Links.made self.now.below →
            Answers (unless_visible (hidden self.now.classes self.now.bars)
            (B.Links.graph self.now.below).size a b refusal) result (λ _. Unit {0}) }
    {
        check_two(self.below.size(), a, b, Layer::Book)?;
        if self.hidden(a, b) {
            return Err(refusal.by(Layer::Book));
        }
        Ok(())
    }
}

impl<B: Book> Links for ClassFilter<B> {
    ghost graph = { filter_graph B.Links.graph };

    ghost made = { FilterMade B.Links.made };

    fn size(&self) -> usize {
        self.below.size()
    }

    /// Whether a and b are linked, and their link is not hidden. Asks the book below once.
    fn linked(&self, a: usize, b: usize) -> bool {
        self.below.linked(a, b) && !self.hidden(a, b)
    }

    /// The number of links of a that are not hidden. Asks the book below for each of its links.
    fn degree(&self, a: usize) -> usize {
        self.count_visible(a, self.below.size())
    }

    /// The smallest load at or above `from` whose link with a is not hidden. Asks the book below
    /// for each hidden one before it.
    fn next_linked(&self, a: usize, from: usize) -> Option<usize> {
        linked_loads_from(&self.below, a, from, self.below.size()).find(|b| !self.hidden(a, *b))
    }

    /// The number of links that are not hidden. Asks the book below for each link, hidden or not.
    // Each link is counted at its higher load. A book that was not made may tell any size; at 256
    // the sum cannot overflow.
    fn link_count(&self) -> usize {
        let size = self.below.size().min(MOST_LOADS);
        (0..size).map(|a| self.count_visible(a, a)).sum()
    }
}

impl<B: Book> Book for ClassFilter<B> {
    ghost ledger = { filter_ledger B.Links.graph B.Book.ledger };

    ghost Fixed = { FilterFixed B.Book.Fixed };

    ghost fixed = { filter_fixed B.Book.fixed };

    /// The limit of the book below.
    fn limit(&self) -> usize {
        self.below.limit()
    }

    /// Whether a and b are barred below, or are loads of barred classes.
    fn is_barred(&self, a: usize, b: usize) -> bool {
        let size = self.below.size();
        self.below.is_barred(a, b) || (a < size && b < size && self.hidden(a, b))
    }

    /// The spare of a in the book below, which its hidden links take from too.
    fn spare(&self, a: usize) -> usize {
        self.below.spare(a)
    }

    /// The room of the book below, which hidden links take from too.
    fn room(&self) -> usize {
        self.below.room()
    }

    /// Links a and b in the book below. The book refuses with 4, 5, 8, 6, 9 or 10, in this order,
    /// where 8 is for barred classes too; then all stays as it was.
    fn add(&mut self, a: usize, b: usize) -> Result<(), Refused>
        ensures adds { Adds (filter_graph B.Links.graph) (FilterMade B.Links.made)
            (filter_ledger B.Links.graph B.Book.ledger) self.old a b result self.new }
        ensures below { AddedBelow B.Links.graph B.Links.made B.Book.ledger
            self.old.below a b result self.new.below }
        ensures stays { filter_fixed B.Book.fixed self.new ≡ filter_fixed B.Book.fixed self.old }
    {
        self.check_visible(a, b, Refusal::Barred)?;
        self.below.add(a, b)
    }

    /// Unlinks a and b in the book below. The book refuses with 4, 5 or 7, in this order, where 7
    /// is for a hidden link too; then all stays as it was.
    fn remove(&mut self, a: usize, b: usize) -> Result<(), Refused>
        ensures removes { Removes (filter_graph B.Links.graph) (FilterMade B.Links.made)
            (filter_ledger B.Links.graph B.Book.ledger) self.old a b result self.new }
        ensures below { RemovedBelow B.Links.graph B.Links.made B.Book.ledger
            self.old.below a b result self.new.below }
        ensures stays { filter_fixed B.Book.fixed self.new ≡ filter_fixed B.Book.fixed self.old }
    {
        self.check_visible(a, b, Refusal::NotLinked)?;
        self.below.remove(a, b)
    }
}
