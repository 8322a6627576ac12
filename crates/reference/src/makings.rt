//! What the makings of books and of link lists refuse.
ghost use Rattle.std.specs.Prelude.{◌≤◌, OnOk};
ghost use Rattle.reference.specs.Ranges.{IsWithin};

use crate::plain_book::Answer;
use links::{Layer, Refusal};

/// A book of so many loads with these limits, in so many words or numbers of memory, where as many
/// as `need` are needed. For a kind without a row limit, that is 1.
pub fn book(size: usize, row_limit: usize, limit: usize, need: usize, length: usize) -> Answer
    ensures { OnOk result
        (IsWithin 1 256 size × IsWithin 1 255 row_limit × IsWithin 1 32640 limit
        × (need ≤ length)) }
{
    let refusal = if size < 1 || size > 256 {
        Refusal::SizeOutOfRange
    } else if limit < 1 || limit > 32640 || row_limit < 1 || row_limit > 255 {
        Refusal::LimitOutOfRange
    } else if length < need {
        Refusal::WrongLength
    } else {
        return Ok(());
    };
    Err(refusal.by(Layer::Book))
}

/// Entries a, b with a < b below the size, each after the one before it.
pub fn list(size: usize, entries: &[(u16, u16)]) -> Answer
    ensures { OnOk result (IsWithin 1 256 size) }
{
    if size < 1 || size > 256 {
        return Err(Refusal::SizeOutOfRange.by(Layer::Book));
    }
    let mut last = None;
    for (index, &(a, b)) in entries.iter().enumerate() {
        let in_bounds = a < b && usize::from(b) < size;
        if !in_bounds || last.is_some_and(|before| before >= (a, b)) {
            return Err(Refusal::BadEntry(index).by(Layer::Book));
        }
        last = Some((a, b));
    }
    Ok(())
}
