// Calls that lead to what random calls seldom do.
use crate::random::Random;
use reference::calls::Call;
use std::alloc::{AllocError, Global};
use std::array;

const SIX_LOADS: [(u16, u16); 6] = [(0, 1), (2, 3), (0, 2), (1, 3), (1, 5), (3, 4)];

// Links six loads in one of the 720 orders of these links, each of which has its own number, and
// then unlinks 0 and 1.
pub fn six_loads(alloc: Global, number: usize) -> Result<Vec<Call>, AllocError> {
    let mut links = SIX_LOADS;
    let mut rest = number;
    for i in 1..6 {
        links.swap(i, rest % (i + 1));
        rest /= i + 1;
    }
    let mut script = Vec::new(alloc);
    for (a, b) in links {
        script.push(Call::Link(a, b))?;
    }
    script.push(Call::Unlink(0, 1))?;
    Ok(script)
}

fn shuffle(random: &mut Random, numbers: &mut [u16]) {
    for i in 1..numbers.len() {
        numbers.swap(i, random.below(i + 1));
    }
}

// The loads below a size, in a random order.
fn shuffled(alloc: Global, random: &mut Random, size: u16) -> Result<Vec<u16>, AllocError> {
    let mut loads = Vec::new(alloc);
    for load in 0..size {
        loads.push(load)?;
    }
    shuffle(random, &mut loads);
    Ok(loads)
}

// The load at a place; past the end, load 0.
fn at(loads: &[u16], place: usize) -> u16 {
    loads.get(place).copied().unwrap_or(0)
}

// Puts load 0 at a place, and the load that was there at its place.
fn put_lowest(loads: &mut [u16], place: usize) {
    if let Some(lowest) = loads.iter().position(|load| *load == 0)
        && place < loads.len()
    {
        loads.swap(lowest, place);
    }
}

// Links a hub, which stays free, to pair after pair until it displaces a load. Some loads have a
// link to x, from where a path leads on over its partner y to a free end; if one of these is
// displaced, the path is augmented. Half the time the partner of load 0 has about as many links as
// the threshold.
pub fn hub(alloc: Global, random: &mut Random, size: u16) -> Result<Vec<Call>, AllocError> {
    let mut loads = shuffled(alloc, random, size)?;
    let busy = random.chance(50);
    if busy {
        put_lowest(&mut loads, 5);
    }
    let [hub, end, x, y]: [u16; 4] = array::from_fn(|place| at(&loads, place));
    let mut script = Vec::new(alloc);
    for two in loads.chunks_exact(2).skip(1) {
        if let [a, b] = two {
            script.push(Call::Link(*a, *b))?;
        }
    }
    script.push(Call::Link(y, end))?;
    for &load in loads.iter().skip(4) {
        if random.chance(30) {
            script.push(Call::Link(load, x))?;
        }
        if busy && random.chance(70) {
            script.push(Call::Link(load, at(&loads, 4)))?;
        }
    }
    for &load in loads.iter().skip(4) {
        script.push(Call::Link(hub, load))?;
    }
    Ok(script)
}
