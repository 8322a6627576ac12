//! Which of two loads a load would rather be paired with.
#![tactic(auto)]

ghost use Rattle.std.specs.Prelude.{◌≡◌, ℕ, Bool};
ghost use Rattle.ranking.specs.First.{earlier};
ghost use Rattle.ranking.specs.Order.{StrictOrder, lower};

pub mod detour;

/// For each load, a strict total order of all numbers: which of two loads it would rather have as
/// its partner. No call refuses.
pub trait Ranking {
    /// `before r a x y`: for the load a, x comes before y.
    ghost before: { Self → ℕ → ℕ → ℕ → Bool };

    /// Whether, for the load a, x comes before y.
    fn comes_first(&self, a: usize, x: usize, y: usize) -> bool
        ensures value { result ≡ before self.now a x y }
        ensures ordered { (b : ℕ) → StrictOrder (before self.now b) };

    /// Which of the best so far and x comes first in a's ranking.
    final fn earlier(&self, a: usize, best: Option<usize>, x: usize) -> usize
        ensures { result ≡ earlier (before self.now a) best x }
    {
        match best {
            Some(b) if self.comes_first(a, b, x) => b,
            _ => x,
        }
    }
}

/// The lower number comes first.
#[derive(Clone, Copy, PartialEq, Eq, Debug)]
pub struct ByNumber;

impl Ranking for ByNumber {
    ghost before = { λ _ _. lower };

    fn comes_first(&self, _a: usize, x: usize, y: usize) -> bool {
        x < y
    }
}
