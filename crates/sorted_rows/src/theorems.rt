//! What holds of every book in rows that came from its making. The functions here do nothing: the
//! contract of each is a theorem.
ghost use Rattle.sorted_rows.specs.Theorems.{RowsOfGraph, MemoryFollows, SparesLeft};
ghost use Rattle.sorted_rows.specs.Theorems.{NumbersOrdered};

/// Row a is the number of links of a, the loads linked to a in rising order, and then zeros.
pub fn rows_of_graph()
    ensures { RowsOfGraph }
{}

/// What every number of lent memory holds, once a book was made in it and went through any calls,
/// granted or refused: the links as they are now, and past the rows what it held before.
pub fn memory_follows()
    ensures { MemoryFollows }
{}

/// The spare of a load is always the row limit less its degree, which is at most the row limit.
pub fn spares_left()
    ensures { SparesLeft }
{}

/// The order in which rows rise is strict and total: of two numbers that are not equal, exactly one
/// comes first.
pub fn numbers_are_ordered()
    ensures { NumbersOrdered }
{}
