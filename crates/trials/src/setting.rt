// What a board stands on, and which calls are made on it.
use crate::random::Random;
use book_kinds::Shape;
use ranking::detour::Place;
use reference::calls::Call;
use reference::order::Order;
use std::alloc::{AllocError, Global};

#[derive(Clone, Copy, PartialEq, Eq, Debug)]
pub enum RankingKind {
    ByNumber,
    ByDetour,
}

// How many filters stand on the book, one on the other.
#[derive(Clone, Copy, PartialEq, Eq, Debug)]
pub enum Filters {
    None,
    One,
    Two,
}

// What a board has besides its book.
#[derive(Clone, Copy, Debug)]
pub struct Kind {
    pub filters: Filters,
    pub ranking: RankingKind,
}

pub const RANKINGS: [RankingKind; 2] = [RankingKind::ByNumber, RankingKind::ByDetour];

// What a filter is made with.
#[derive(Drop)]
pub struct Classes {
    pub of_loads: Vec<u8>,
    pub bars: [u8; 8],
}

// A board, the calls that are made on it first, and how many are drawn at random after them.
#[derive(Drop)]
pub struct Setting {
    pub shape: Shape,
    // how many links are tried before the board is opened
    pub brought: usize,
    pub script: Vec<Call>,
    pub calls: usize,
    // how many of the links in a hundred are of the highest load
    pub hub_percent: usize,
    // those of the filter on the book, and of the filter on that
    pub lower: Classes,
    pub upper: Classes,
    pub places: Vec<Place>,
}

// One coordinate: mostly small, so that many detours are equal, and at times at an end of the
// range.
fn draw_coordinate(random: &mut Random) -> i32 {
    match random.below(12) {
        0 => i32::MIN,
        1 => i32::MAX,
        n => n as i32 - 6,
    }
}

fn draw_places(alloc: Global, random: &mut Random, size: usize) -> Result<Vec<Place>, AllocError> {
    let mut places = Vec::new(alloc);
    for _ in 0..random.below(size.saturating_add(2)) {
        places.push(Place {
            x: draw_coordinate(random),
            y: draw_coordinate(random),
        })?;
    }
    Ok(places)
}

// Few bits, so that most pairs are not barred.
fn draw_bars(random: &mut Random) -> [u8; 8] {
    let mut bars = [0; 8];
    for byte in bars.iter_mut() {
        *byte = random.byte() & random.byte();
    }
    bars
}

fn draw_classes(
    alloc: Global,
    random: &mut Random,
    size: usize,
    bars: [u8; 8],
) -> Result<Classes, AllocError> {
    let mut of_loads = Vec::new(alloc);
    for _ in 0..random.below(size.saturating_add(2)) {
        of_loads.push(random.byte() % 10)?;
    }
    Ok(Classes { of_loads, bars })
}

// Fewer calls on a large board, on which each takes long to compare.
fn draw_calls(random: &mut Random, size: usize) -> usize {
    if size > 100 {
        random.between(5, 15)
    } else {
        random.between(10, 60)
    }
}

impl Setting {
    // A board that is opened on a book without links, and whose loads may have every link.
    pub fn scripted(
        alloc: Global,
        random: &mut Random,
        size: usize,
        limit: usize,
        script: Vec<Call>,
    ) -> Result<Setting, AllocError> {
        Ok(Setting {
            shape: Shape {
                size,
                row_limit: size.saturating_sub(1),
                limit,
            },
            brought: 0,
            script,
            calls: 0,
            hub_percent: 0,
            lower: draw_classes(alloc, random, size, [0; 8])?,
            upper: draw_classes(alloc, random, size, [0; 8])?,
            places: draw_places(alloc, random, size)?,
        })
    }

    pub fn draw(alloc: Global, random: &mut Random, size: usize) -> Result<Setting, AllocError> {
        let (lower, upper) = (draw_bars(random), draw_bars(random));
        Ok(Setting {
            shape: Shape {
                size,
                row_limit: random.between(size / 2, size.saturating_sub(1)).max(1),
                limit: random.between(1, size.saturating_mul(3)),
            },
            brought: random.below(size),
            script: Vec::new(alloc),
            calls: draw_calls(random, size),
            hub_percent: random.below(80),
            lower: draw_classes(alloc, random, size, lower)?,
            upper: draw_classes(alloc, random, size, upper)?,
            places: draw_places(alloc, random, size)?,
        })
    }

    // The reference's order for the ranking.
    pub fn order(&self, alloc: Global, ranking: RankingKind) -> Result<Order, AllocError> {
        match ranking {
            RankingKind::ByNumber => Ok(Order::ByNumber),
            RankingKind::ByDetour => {
                let mut places = Vec::new(alloc);
                for place in &self.places {
                    places.push((place.x, place.y))?;
                }
                Ok(Order::ByDetour(places))
            }
        }
    }

    // A load, or at times one of the first two numbers past them.
    fn draw_load(&self, random: &mut Random) -> usize {
        if random.chance(2) {
            self.shape.size.saturating_add(random.below(2))
        } else {
            random.below(self.shape.size)
        }
    }

    pub fn draw_call(&self, random: &mut Random) -> Call {
        let (a, b) = self.draw_two(random);
        let a = u16::try_from(a).unwrap_or(u16::MAX);
        let b = u16::try_from(b).unwrap_or(u16::MAX);
        match random.below(100) {
            0..70 => Call::Link(a, b),
            70..87 => Call::Unlink(a, b),
            87..91 => Call::Withdraw(b),
            91..95 => Call::Depart(b),
            _ => Call::Partner(a),
        }
    }

    // Two loads, at times the same, and often one of them the hub.
    pub fn draw_two(&self, random: &mut Random) -> (usize, usize) {
        let a = if random.chance(self.hub_percent) {
            self.shape.size.saturating_sub(1)
        } else {
            self.draw_load(random)
        };
        let b = if random.chance(2) {
            a
        } else {
            self.draw_load(random)
        };
        if random.chance(50) { (a, b) } else { (b, a) }
    }
}
