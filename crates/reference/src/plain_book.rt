//! A book of links as sets of pairs.
ghost use Rattle.std.specs.Prelude.{◌≡◌, ◌≢◌, ◌<◌, ◌≤◌, vec_len, IfSome, IfOk, IfErr, OnOk, OnErr};

use links::{Layer, Refusal, Refused};
use std::alloc::{AllocError, Global};
use std::collections::BTreeSet;

/// Links, barred pairs, and how many more links each load and the book may take.
#[derive(Debug, Drop)]
pub struct PlainBook {
    limit: usize,
    links: BTreeSet<(usize, usize)>,
    barred: BTreeSet<(usize, usize)>,
    // one for each load
    spares: Vec<usize>,
    room: usize,
}

/// What a call answers that is granted or refused.
pub type Answer = Result<(), Refused>;

// A pair of loads, the lower one first.
fn pair(a: usize, b: usize) -> (usize, usize)
    ensures { result.0 ≤ result.1 }
{
    (a.min(b), a.max(b))
}

fn class_of(classes: &[u8], a: usize) -> usize
    ensures { result < 8 }
{
    match classes.get(a) {
        Some(&class) if class < 7 => usize::from(class),
        Some(_) => 7,
        None => 0,
    }
}

// Whether bit j of a byte is 1.
fn has_bit(byte: u8, j: usize) -> bool
    requires { j < 8 }
{
    (byte >> j) % 2 == 1
}

impl PlainBook {
    /// A book without links, in which each load may take `spare` links, and the book `limit`.
    pub fn new(
        alloc: Global,
        size: usize,
        spare: usize,
        limit: usize,
    ) -> Result<PlainBook, AllocError>
        ensures { IfOk result
            (λ book. (vec_len book.spares ≡ size) × (book.limit ≡ limit) × (book.room ≡ limit)) }
    {
        Ok(PlainBook {
            limit,
            links: BTreeSet::new(alloc),
            barred: BTreeSet::new(alloc),
            spares: vec![in alloc; spare; size]?,
            room: limit,
        })
    }

    /// Bars a pair. A link that it has is hidden: it counts as no link, and keeps its part of the
    /// spares and the room.
    pub fn bar(&mut self, a: usize, b: usize) -> Result<(), AllocError>
        ensures size { vec_len self.new.spares ≡ vec_len self.old.spares }
        ensures limit { self.new.limit ≡ self.old.limit }
    {
        self.barred.insert(pair(a, b))?;
        self.links.remove(&pair(a, b));
        Ok(())
    }

    /// Bars the pairs whose classes i and j are barred: byte i has bit j set, or byte j has bit i
    /// set. A class above 7 stands for 7; a load that is given none has class 0.
    pub fn bar_classes(&mut self, classes: &[u8], bars: [u8; 8]) -> Result<(), AllocError>
        ensures size { vec_len self.new.spares ≡ vec_len self.old.spares }
        ensures limit { self.new.limit ≡ self.old.limit }
    {
        for a in 0..self.size() {
            for b in a..self.size() {
                let i = class_of(classes, a);
                let j = class_of(classes, b);
                if has_bit(bars[i], j) || has_bit(bars[j], i) {
                    self.bar(a, b)?;
                }
            }
        }
        Ok(())
    }

    /// The number of loads.
    pub fn size(&self) -> usize
        ensures { result ≡ vec_len self.now.spares }
    {
        self.spares.len()
    }

    /// The most links that the book takes.
    pub fn limit(&self) -> usize
        ensures { result ≡ self.now.limit }
    {
        self.limit
    }

    /// Whether the pair is barred.
    pub fn is_barred(&self, a: usize, b: usize) -> bool {
        self.barred.contains(&pair(a, b))
    }

    /// Whether the two are linked.
    pub fn linked(&self, a: usize, b: usize) -> bool {
        self.links.contains(&pair(a, b))
    }

    /// The smallest load at or above `from` that is linked to a.
    pub fn next_linked(&self, a: usize, from: usize) -> Option<usize>
        ensures { IfSome result (λ b. (from ≤ b) × (b < vec_len self.now.spares)) }
    {
        (from..self.size()).find(|&b| self.linked(a, b))
    }

    /// The number of links.
    pub fn link_count(&self) -> usize {
        self.links.len()
    }

    /// The number of links of a load.
    pub fn degree(&self, a: usize) -> usize
        ensures { result ≤ vec_len self.now.spares }
    {
        (0..self.size()).filter(|&b| self.linked(a, b)).count()
    }

    /// How many more links a load may take.
    pub fn spare(&self, a: usize) -> usize
        ensures { vec_len self.now.spares ≤ a → result ≡ 0 }
    {
        self.spares.get(a).copied().unwrap_or(0)
    }

    /// How many more links the book may take.
    pub fn room(&self) -> usize
        ensures { result ≡ self.now.room }
    {
        self.room
    }

    /// Whether a and b are two loads of the book, as a layer tells it.
    pub fn check_two(&self, a: usize, b: usize, layer: Layer) -> Answer
        ensures granted { OnOk result
            ((a < vec_len self.now.spares) × (b < vec_len self.now.spares) × (a ≢ b)) }
        ensures layer { IfErr result (λ refused. refused.layer ≡ layer) }
    {
        if a.max(b) >= self.size() {
            Err(Refusal::NoSuchLoad.by(layer))
        } else if a == b {
            Err(Refusal::SameLoad.by(layer))
        } else {
            Ok(())
        }
    }

    fn check_add(&self, a: usize, b: usize) -> Answer
        ensures { IfErr result (λ refused. refused.layer ≡ Layer.Book) }
    {
        self.check_two(a, b, Layer::Book)?;
        let reason = if self.is_barred(a, b) {
            Refusal::Barred
        } else if self.linked(a, b) {
            Refusal::AlreadyLinked
        } else if self.spare(a).min(self.spare(b)) == 0 {
            Refusal::LoadFull
        } else if self.room == 0 {
            Refusal::BookFull
        } else {
            return Ok(());
        };
        Err(reason.by(Layer::Book))
    }

    /// Adds the link of a and b, unless it is refused.
    pub fn add(&mut self, a: usize, b: usize) -> Result<Answer, AllocError>
        ensures refused { IfOk result (λ answer. OnErr answer (self.new ≡ self.old)) }
        ensures layer { IfOk result
            (λ answer. IfErr answer (λ refused. refused.layer ≡ Layer.Book)) }
    {
        let answer = self.check_add(a, b);
        if answer.is_ok() {
            self.links.insert(pair(a, b))?;
            self.room = self.room.saturating_sub(1);
            for load in [a, b] {
                if let Some(spare) = self.spares.get_mut(load) {
                    *spare = spare.saturating_sub(1);
                }
            }
        }
        Ok(answer)
    }

    /// Removes the link of a and b, unless it is refused.
    pub fn remove(&mut self, a: usize, b: usize) -> Answer
        ensures refused { OnErr result (self.new ≡ self.old) }
        ensures layer { IfErr result (λ refused. refused.layer ≡ Layer.Book) }
    {
        self.check_two(a, b, Layer::Book)?;
        if !self.linked(a, b) {
            return Err(Refusal::NotLinked.by(Layer::Book));
        }
        self.take_out(a, b);
        Ok(())
    }

    // Takes out a link, and gives back what it used.
    fn take_out(&mut self, a: usize, b: usize)
        ensures size { vec_len self.new.spares ≡ vec_len self.old.spares }
        ensures limit { self.new.limit ≡ self.old.limit }
    {
        self.links.remove(&pair(a, b));
        self.room = self.room.saturating_add(1);
        for load in [a, b] {
            if let Some(spare) = self.spares.get_mut(load) {
                *spare = spare.saturating_add(1);
            }
        }
    }

    /// Removes every link of a load.
    pub fn remove_all(&mut self, a: usize)
        ensures size { vec_len self.new.spares ≡ vec_len self.old.spares }
        ensures limit { self.new.limit ≡ self.old.limit }
    {
        for b in 0..self.size() {
            if self.linked(a, b) {
                self.take_out(a, b);
            }
        }
    }
}
