//! Loads with the partners that the rules give them, and the calls that change their links.
ghost use Rattle.std.specs.Prelude.{◌≡◌, ℕ, ◌*◌, ◌<◌, ◌≤◌, vec_len, IfSome, IfOk, OnOk, OnErr};

use crate::order::Order;
use crate::plain_book::{Answer, PlainBook};
use crate::repairs::RepairCounts;
use links::{Layer, Refusal, Refused};
use std::alloc::{AllocError, Global};

/// A book, the order by which its loads choose, the partners, and what the repairs did so far.
#[derive(Debug, Drop)]
pub struct Pairing {
    pub(crate) book: PlainBook,
    pub(crate) order: Order,
    // one for each load
    partners: Vec<Option<usize>>,
    pub(crate) threshold: usize,
    pub(crate) repairs: RepairCounts,
}

/// The least whole number whose square is at least twice the limit.
pub fn threshold_of(limit: usize) -> usize
    ensures enough { limit ≤ 32640 → 2 * limit ≤ result * result }
    ensures least { (t : ℕ) → t < result → t * t < 2 * limit }
{
    let mut t = 0;
    while t < 256 && t * t < limit.saturating_mul(2) {
        t += 1;
    }
    t
}

impl Pairing {
    /// All loads are free at first, and all are repaired.
    pub fn open(alloc: Global, book: PlainBook, order: Order) -> Result<Pairing, AllocError>
        ensures { IfOk result (λ pairing. pairing.book ≡ book) }
    {
        let size = book.size();
        let mut pairing = Pairing {
            partners: vec![in alloc; None; size]?,
            threshold: threshold_of(book.limit()),
            repairs: RepairCounts::NONE,
            book,
            order,
        };
        let mut loads = Vec::new(alloc);
        for load in 0..size {
            loads.push(load)?;
        }
        pairing.repair(&loads);
        Ok(pairing)
    }

    /// The book, for asking.
    pub fn book(&self) -> &PlainBook
        ensures { result.now ≡ self.now.book }
    {
        &self.book
    }

    /// What the repairs did since the opening.
    pub fn repairs(&self) -> RepairCounts
        ensures { result ≡ self.now.repairs }
    {
        self.repairs
    }

    pub(crate) fn partner_of(&self, a: usize) -> Option<usize> {
        *self.partners.get(a)?
    }

    pub(crate) fn is_free(&self, a: usize) -> bool {
        self.partner_of(a).is_none()
    }

    fn set_partner(&mut self, a: usize, partner: Option<usize>)
        ensures { self.new.book ≡ self.old.book }
    {
        if let Some(place) = self.partners.get_mut(a) {
            *place = partner;
        }
    }

    pub(crate) fn pair(&mut self, a: usize, b: usize)
        ensures { self.new.book ≡ self.old.book }
    {
        self.set_partner(a, Some(b));
        self.set_partner(b, Some(a));
    }

    // Frees a load and its partner.
    pub(crate) fn part(&mut self, a: usize)
        ensures { self.new.book ≡ self.old.book }
    {
        if let Some(b) = self.partner_of(a) {
            self.set_partner(a, None);
            self.set_partner(b, None);
        }
    }

    fn check_load(&self, a: usize) -> Answer
        ensures { OnOk result (a < vec_len self.now.book.spares) }
    {
        if a < self.book.size() {
            Ok(())
        } else {
            Err(Refusal::NoSuchLoad.by(Layer::Board))
        }
    }

    /// Adds a link and repairs both loads. An error where memory runs out.
    pub fn link(&mut self, a: usize, b: usize) -> Result<Answer, AllocError>
        ensures { IfOk result (λ answer. OnErr answer (self.new ≡ self.old)) }
    {
        let mut answer = self.book.check_two(a, b, Layer::Board);
        if answer.is_ok() {
            answer = self.book.add(a, b)?;
        }
        if answer.is_ok() {
            self.repair(&[a.min(b), a.max(b)]);
        }
        Ok(answer)
    }

    /// Removes a link, parts the two if they are partners, and repairs both.
    pub fn unlink(&mut self, a: usize, b: usize) -> Answer
        ensures { OnErr result (self.new ≡ self.old) }
    {
        self.book.check_two(a, b, Layer::Board)?;
        self.book.remove(a, b)?;
        if self.partner_of(a) == Some(b) {
            self.part(a);
        }
        self.repair(&[a.min(b), a.max(b)]);
        Ok(())
    }

    /// Removes all links of a load, parts it, and repairs the load that was its partner.
    pub fn withdraw(&mut self, a: usize) -> Answer
        ensures { OnErr result (self.new ≡ self.old) }
    {
        self.check_load(a)?;
        self.book.remove_all(a);
        if let Some(b) = self.partner_of(a) {
            self.part(a);
            self.repair(&[b]);
        }
        Ok(())
    }

    /// A load and its partner part, and lose all their links.
    pub fn depart(&mut self, a: usize) -> Answer
        ensures { OnErr result (self.new ≡ self.old) }
    {
        self.check_load(a)?;
        let b = self
            .partner_of(a)
            .ok_or(Refusal::NoPartner.by(Layer::Board))?;
        self.book.remove_all(a);
        self.book.remove_all(b);
        self.part(a);
        Ok(())
    }

    /// The partner of a load, if it has one.
    pub fn partner(&self, a: usize) -> Result<Option<usize>, Refused>
        ensures { OnOk result (a < vec_len self.now.book.spares) }
    {
        self.check_load(a)?;
        Ok(self.partner_of(a))
    }

    /// The number of free loads that a load is linked to.
    pub fn free_links(&self, a: usize) -> Result<usize, Refused>
        ensures { IfOk result (λ n. n ≤ vec_len self.now.book.spares) }
    {
        self.check_load(a)?;
        let loads = 0..self.book.size();
        Ok(loads.filter(|&b| self.is_free_link(a, b)).count())
    }

    /// The smallest free load at or above `from` that a load is linked to.
    pub fn next_free_link(&self, a: usize, from: usize) -> Result<Option<usize>, Refused>
        ensures { IfOk result
            (λ found. IfSome found (λ b. (from ≤ b) × (b < vec_len self.now.book.spares))) }
    {
        self.check_load(a)?;
        Ok((from..self.book.size()).find(|&b| self.is_free_link(a, b)))
    }

    fn is_free_link(&self, a: usize, b: usize) -> bool {
        self.book.linked(a, b) && self.is_free(b)
    }

    /// The number of pairs: each counts at its lower load.
    pub fn pair_count(&self) -> usize
        ensures { result ≤ vec_len self.now.book.spares }
    {
        let loads = 0..self.book.size();
        loads
            .filter(|&a| self.partner_of(a).is_some_and(|b| a < b))
            .count()
    }
}
