//! Which of two loads a load would rather be paired with.
ghost use Rattle.std.specs.Prelude.{◌<◌, ◌≤◌};

/// By the lower number, or by the smaller detour and then the lower number.
#[derive(Debug, Drop)]
pub enum Order {
    /// The lower number first.
    ByNumber,
    /// The place of each load; a load without one is at 0, 0.
    ByDetour(Vec<(i32, i32)>),
}

// How far two coordinates lie apart.
fn apart(a: i32, b: i32) -> u64
    ensures { result < 4294967296 }
{
    (i64::from(a) - i64::from(b)).unsigned_abs()
}

impl Order {
    /// What a load looks at first in another: its detour, if the order goes by that.
    pub fn detour(&self, a: usize, x: usize) -> u64
        ensures { result ≤ 8589934590 }
    {
        match self {
            Order::ByNumber => 0,
            Order::ByDetour(places) => {
                let (xa, ya) = places.get(a).copied().unwrap_or((0, 0));
                let (xx, yx) = places.get(x).copied().unwrap_or((0, 0));
                apart(xa, xx) + apart(ya, yx)
            }
        }
    }
}
