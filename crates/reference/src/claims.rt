//! The first fault of claimed partners, by trying every load.
ghost use Rattle.std.specs.Prelude.{◌≡◌, length, vec_len, OnOk};

use crate::plain_book::PlainBook;
use links::{Layer, Refusal, Refused};

/// The claims are sound, or what their first fault is, with its loads.
#[derive(Clone, Copy, PartialEq, Eq, Debug)]
pub enum Finding {
    Sound,
    NotReturned(usize),
    NotLinked(usize),
    PathOfOne(usize, usize),
    PathOfThree(usize, usize, usize, usize),
}

#[derive(Clone, Copy)]
struct Claims<'a> {
    book: &'a PlainBook,
    // one for each load; 65535 stands for no partner
    claims: &'a [u16],
}

impl Claims<'_> {
    fn partner(&self, a: usize) -> Option<usize> {
        match self.claims.get(a) {
            None | Some(65535) => None,
            Some(&claim) => Some(usize::from(claim)),
        }
    }

    fn is_free(&self, a: usize) -> bool {
        self.partner(a).is_none()
    }

    fn not_returned(&self, a: usize) -> Option<Finding> {
        let b = self.partner(a)?;
        (self.partner(b) != Some(a)).then_some(Finding::NotReturned(a))
    }

    fn not_linked(&self, a: usize) -> Option<Finding> {
        let b = self.partner(a)?;
        (!self.book.linked(a, b)).then_some(Finding::NotLinked(a))
    }

    fn path_of_one(&self, a: usize) -> Option<Finding> {
        if !self.is_free(a) {
            return None;
        }
        for b in 0..self.claims.len() {
            if self.is_free(b) && self.book.linked(a, b) {
                return Some(Finding::PathOfOne(a, b));
            }
        }
        None
    }

    fn path_of_three(&self, a: usize) -> Option<Finding> {
        if !self.is_free(a) {
            return None;
        }
        for x in 0..self.claims.len() {
            for z in 0..self.claims.len() {
                if let Some(y) = self.partner(x)
                    && z != a
                    && self.is_free(z)
                    && self.book.linked(a, x)
                    && self.book.linked(y, z)
                {
                    return Some(Finding::PathOfThree(a, x, y, z));
                }
            }
        }
        None
    }

    fn finding(&self) -> Finding {
        let n = self.claims.len();
        (0..n)
            .find_map(|a| self.not_returned(a))
            .or_else(|| (0..n).find_map(|a| self.not_linked(a)))
            .or_else(|| (0..n).find_map(|a| self.path_of_one(a)))
            .or_else(|| (0..n).find_map(|a| self.path_of_three(a)))
            .unwrap_or(Finding::Sound)
    }
}

/// What is to be found in the claims of the loads of a book.
pub fn examine(book: &PlainBook, claims: &[u16]) -> Result<Finding, Refused>
    ensures { OnOk result (length claims.now ≡ vec_len book.now.spares) }
{
    if claims.len() == book.size() {
        Ok(Claims { book, claims }.finding())
    } else {
        Err(Refusal::WrongLength.by(Layer::Board))
    }
}
