//! What a caller can prove of books from their contracts alone.
#![tactic(auto)]

ghost use Rattle.std.specs.Prelude.{◌≡◌, true, length, None, Ok};
ghost use Rattle.graph.specs.Graph.{no_links};
ghost use Rattle.links.specs.Books.{adding, fresh_ledger};
ghost use Rattle.links.specs.Refusals.{Answers, Kept};
ghost use Rattle.book_examples.specs.Answers.{GrantedThenRefused};

/// What a link list answers, and an audit over it.
pub mod lists;
/// What the caller of a book finds in the memory that it lent.
pub mod memory;

use bit_matrix::BitMatrix;
use book_kinds::{BookKind, Shape, each_kind_of_book};
use class_filter::ClassFilter;
use links::{Book, Links, Refused};
use sorted_rows::SortedRows;

/// Links a and b in any book, and asks for the link the other way round: where the book does not
/// refuse, it is there. A refusal is the book's own, and leaves it as it was.
pub fn add_and_ask<B: Book>(book: &mut B, a: usize, b: usize) -> Result<bool, Refused>
    ensures answer { B.Links.made book.old →
        Answers (adding (B.Links.graph book.old) (B.Book.ledger book.old) a b) result
        (λ there. there ≡ true) }
    ensures kept { Kept result book.old book.new }
{
    book.add(a, b)?;
    Ok(book.linked(b, a))
}

/// The same in a book behind a filter that hides nothing: the filter answers as the book itself.
pub fn add_and_ask_filtered<B: Book + Drop>(book: B, a: usize, b: usize) -> Result<bool, Refused>
    ensures { B.Links.made book →
        Answers (adding (B.Links.graph book) (B.Book.ledger book) a b) result
        (λ there. there ≡ true) }
{
    let mut filtered = ClassFilter::new(book, &[], [0; 8]);
    add_and_ask(&mut filtered, a, b)
}

/// The same in a book behind two such filters. A filter is a book too.
pub fn add_and_ask_filtered_twice<B: Book + Drop>(
    book: B,
    a: usize,
    b: usize,
) -> Result<bool, Refused>
    ensures { B.Links.made book →
        Answers (adding (B.Links.graph book) (B.Book.ledger book) a b) result
        (λ there. there ≡ true) }
{
    let filtered = ClassFilter::new(book, &[], [0; 8]);
    add_and_ask_filtered(filtered, a, b)
}

/// The same in a fresh book of any kind. Where the making is not refused, the answer is the one
/// that a fresh book of this shape has to give.
pub fn add_and_ask_fresh<'a, K: BookKind<'a>>(
    shape: Shape,
    memory: &'a mut [K::Cell],
    a: usize,
    b: usize,
) -> Result<bool, Refused>
    ensures { K.BookKind.checking shape (length memory.old) ≡ None →
        Answers (adding (no_links shape.size)
        (fresh_ledger shape.size (K.BookKind.spares shape) shape.limit) a b) result
        (λ there. there ≡ true) }
{
    let mut book = K::make(shape, memory);
    add_and_ask(&mut book, a, b)
}

/// The same in a fresh book behind a filter that hides nothing.
pub fn add_and_ask_fresh_filtered<'a, K: BookKind<'a>>(
    shape: Shape,
    memory: &'a mut [K::Cell],
    a: usize,
    b: usize,
) -> Result<bool, Refused>
    ensures { K.BookKind.checking shape (length memory.old) ≡ None →
        Answers (adding (no_links shape.size)
        (fresh_ledger shape.size (K.BookKind.spares shape) shape.limit) a b) result
        (λ there. there ≡ true) }
{
    add_and_ask_filtered(K::make(shape, memory), a, b)
}

/// The same behind two such filters.
pub fn add_and_ask_fresh_filtered_twice<'a, K: BookKind<'a>>(
    shape: Shape,
    memory: &'a mut [K::Cell],
    a: usize,
    b: usize,
) -> Result<bool, Refused>
    ensures { K.BookKind.checking shape (length memory.old) ≡ None →
        Answers (adding (no_links shape.size)
        (fresh_ledger shape.size (K.BookKind.spares shape) shape.limit) a b) result
        (λ there. there ≡ true) }
{
    add_and_ask_filtered_twice(K::make(shape, memory), a, b)
}

const THREE_LOADS: Shape = Shape {
    size: 3,
    row_limit: 1,
    limit: 3,
};

// Links 0 and 1 in fresh books of one kind: bare, behind a filter, and behind two.
macro_rules! first_link {
    ($kind:ty, ($all_there:ident)) => {
        let mut memory = [<$kind as BookKind>::noise(); 6];
        let answer = add_and_ask_fresh::<$kind>(THREE_LOADS, &mut memory, 0, 1);
        $all_there = $all_there & (answer == Ok(true));
        let answer = add_and_ask_fresh_filtered::<$kind>(THREE_LOADS, &mut memory, 0, 1);
        $all_there = $all_there & (answer == Ok(true));
        let answer = add_and_ask_fresh_filtered_twice::<$kind>(THREE_LOADS, &mut memory, 0, 1);
        $all_there = $all_there & (answer == Ok(true));
    };
}

/// On a fresh book of every kind the first link is granted, and there; and so it is behind a filter
/// that hides nothing, and behind two.
pub fn on_every_kind() -> bool
    ensures { result ≡ true }
{
    let mut all_there = true;
    each_kind_of_book!(first_link(all_there));
    all_there
}

/// A bit matrix of four loads with limit 1 takes one link, and has no room for another (10).
pub fn full_matrix() -> (Result<(), Refused>, Result<(), Refused>)
    ensures { GrantedThenRefused 10 result.0 result.1 }
{
    let mut words = [0; 4];
    let mut book = BitMatrix::new(4, 1, &mut words);
    let first = book.add(0, 1);
    let second = book.add(2, 3);
    (first, second)
}

/// Rows of three loads with row limit 1: a load that has one link takes no other (9).
pub fn full_row() -> (Result<(), Refused>, Result<(), Refused>)
    ensures { GrantedThenRefused 9 result.0 result.1 }
{
    let mut numbers = [0; 6];
    let mut book = SortedRows::new(3, 1, 3, &mut numbers);
    let first = book.add(0, 1);
    let second = book.add(0, 2);
    (first, second)
}
