//! The two phases of a repair.
ghost use Rattle.std.specs.Prelude.{◌≡◌, ◌≤◌};

use crate::pairing::Pairing;

/// How often a repair did what.
#[derive(Clone, Copy, PartialEq, Eq, Debug)]
pub struct RepairCounts {
    /// A free load paired with a free load that it is linked to.
    pub matched: u64,
    /// A path of three links augmented from a load of the repair.
    pub augmented: u64,
    /// A load displaced that then stayed free.
    pub displaced: u64,
    /// A load displaced, and a path augmented from it.
    pub displaced_augmented: u64,
}

impl RepairCounts {
    /// Nothing was done.
    pub const NONE: RepairCounts = RepairCounts {
        matched: 0,
        augmented: 0,
        displaced: 0,
        displaced_augmented: 0,
    };

    /// These and others.
    pub fn plus(self, other: RepairCounts) -> RepairCounts
        ensures matched { self.matched ≤ result.matched }
        ensures augmented { self.augmented ≤ result.augmented }
        ensures displaced { self.displaced ≤ result.displaced }
        ensures displaced_augmented { self.displaced_augmented ≤ result.displaced_augmented }
    {
        RepairCounts {
            matched: self.matched.saturating_add(other.matched),
            augmented: self.augmented.saturating_add(other.augmented),
            displaced: self.displaced.saturating_add(other.displaced),
            displaced_augmented: self
                .displaced_augmented
                .saturating_add(other.displaced_augmented),
        }
    }
}

// The three loads that follow the first one on an augmenting path of three links.
#[derive(Clone, Copy)]
struct Path {
    x: usize,
    y: usize,
    z: usize,
}

impl Pairing {
    // Repairs these loads, which rise. No link changes.
    pub(crate) fn repair(&mut self, loads: &[usize])
        ensures { self.new.book ≡ self.old.book }
    {
        for &a in loads {
            if self.is_free(a) {
                self.match_free(a);
            }
        }
        for &a in loads {
            if self.is_free(a) {
                self.augment_or_displace(a);
            }
        }
    }

    // The first of the loads linked to a, in its order, that a test lets pass.
    fn first_linked<F: Fn(usize) -> bool>(&self, a: usize, test: F) -> Option<usize>
        requires { F.IsAlwaysCallable test }
    {
        let mut best = None;
        for x in 0..self.book.size() {
            if self.book.linked(a, x) && test(x) && self.comes_first(a, x, best) {
                best = Some(x);
            }
        }
        best
    }

    // Whether x, which has a higher number, comes before the best so far in the order of a.
    fn comes_first(&self, a: usize, x: usize, best: Option<usize>) -> bool {
        best.is_none_or(|b| self.order.detour(a, x) < self.order.detour(a, b))
    }

    fn match_free(&mut self, a: usize)
        ensures { self.new.book ≡ self.old.book }
    {
        if let Some(b) = self.first_linked(a, |x| self.is_free(x)) {
            self.pair(a, b);
            self.repairs.matched = self.repairs.matched.saturating_add(1);
        }
    }

    // The free load, not a, that the partner of x would be paired with.
    fn end_over(&self, a: usize, x: usize) -> Option<usize> {
        let y = self.partner_of(x)?;
        self.first_linked(y, |z| z != a && self.is_free(z))
    }

    fn path_from(&self, a: usize) -> Option<Path> {
        let x = self.first_linked(a, |x| self.end_over(a, x).is_some())?;
        let y = self.partner_of(x)?;
        let z = self.end_over(a, x)?;
        Some(Path { x, y, z })
    }

    // Augments along the first path of three links that begins at a free load, if there is one.
    fn augment(&mut self, a: usize) -> bool
        ensures { self.new.book ≡ self.old.book }
    {
        let Some(path) = self.path_from(a) else {
            return false;
        };
        self.pair(a, path.x);
        self.pair(path.y, path.z);
        true
    }

    fn augment_or_displace(&mut self, a: usize)
        ensures { self.new.book ≡ self.old.book }
    {
        if self.augment(a) {
            self.repairs.augmented = self.repairs.augmented.saturating_add(1);
        } else if self.book.degree(a) > self.threshold {
            self.displace(a);
        }
    }

    // Pairs a with a load whose partner has few links; the partner is freed, and a path sought from
    // there.
    fn displace(&mut self, a: usize)
        ensures { self.new.book ≡ self.old.book }
    {
        let has_few = |y| self.book.degree(y) <= self.threshold;
        let Some(x) = self.first_linked(a, |x| self.partner_of(x).is_some_and(has_few)) else {
            return;
        };
        let Some(y) = self.partner_of(x) else {
            return;
        };
        self.part(y);
        self.pair(a, x);
        if self.augment(y) {
            self.repairs.displaced_augmented = self.repairs.displaced_augmented.saturating_add(1);
        } else {
            self.repairs.displaced = self.repairs.displaced.saturating_add(1);
        }
    }
}
