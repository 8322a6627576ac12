// Changes of a set of loads, and its next member.
ghost use Rattle.std.specs.Prelude.{◌≡◌, ℕ, ◌<◌, IfSome, if◌then◌else◌, nat_eq};
ghost use Rattle.graph.specs.Graph.{Next};
ghost use Rattle.tables.specs.Views.{has};

use crate::LoadSet;
use bits::{next_member, put_bit};
use links::MOST_LOADS;

impl LoadSet {
    // Puts b into the set, or takes it out: afterwards `present` says whether it is a member.
    pub(super) fn put(&mut self, b: u8, present: bool)
        ensures { (y : ℕ)
            → has self.new y ≡ (if nat_eq b y then present else has self.old y) }
    {
        let w = usize::from(b / 64);
        self.words[w] = put_bit(self.words[w], usize::from(b), present);
    }

    // The smallest member at or above `from`.
    pub(super) fn next(&self, from: usize) -> Option<usize>
        ensures value { Next (has self.now) from result }
        ensures bound { IfSome result (λ b. b < MOST_LOADS) }
    {
        next_member(&self.words, from)
    }
}
