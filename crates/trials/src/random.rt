// Numbers drawn by a seed: SplitMix64.
ghost use Rattle.std.specs.Prelude.{◌<◌, ◌≤◌};

#[derive(Clone, Copy)]
pub struct Random {
    state: u64,
}

impl Random {
    pub fn new(seed: u64) -> Random {
        Random { state: seed }
    }

    fn next(&mut self) -> u64 {
        self.state = self.state.wrapping_add(0x9e37_79b9_7f4a_7c15);
        let z = self.state;
        let z = (z ^ (z >> 30)).wrapping_mul(0xbf58_476d_1ce4_e5b9);
        let z = (z ^ (z >> 27)).wrapping_mul(0x94d0_49bb_1331_11eb);
        z ^ (z >> 31)
    }

    // A number below n, or 0 where n is 0.
    pub fn below(&mut self, n: usize) -> usize
        ensures below { 0 < n → result < n }
        ensures within { result ≤ n }
    {
        if n == 0 {
            return 0;
        }
        (self.next() % n as u64) as usize
    }

    // A number from `low` to `high`, or `low` where `high` is less.
    pub fn between(&mut self, low: usize, high: usize) -> usize
        ensures low { low ≤ result }
        ensures high { low ≤ high → result ≤ high }
    {
        match high.checked_sub(low) {
            Some(more) => low + self.below(more.saturating_add(1)),
            None => low,
        }
    }

    pub fn byte(&mut self) -> u8 {
        (self.next() % 256) as u8
    }

    // Whether something comes that comes so often in a hundred.
    pub fn chance(&mut self, percent: usize) -> bool {
        self.below(100) < percent
    }

    // One of these, if there is one.
    pub fn pick<T: Copy>(&mut self, items: &[T]) -> Option<T> {
        let index = self.below(items.len());
        items.get(index).copied()
    }
}
