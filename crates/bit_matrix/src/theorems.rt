//! What holds of every bit matrix that came from its making. The functions here do nothing: the
//! contract of each is a theorem.
ghost use Rattle.bit_matrix.specs.Theorems.{WordsOfGraph, MemoryFollows, NeverFull};

/// Each bit of a matrix's words is that of its graph: with w words to a row, bit j of word a × w +
/// i is 1 where a and 64 × i + j are linked, and the bits of no load are 0.
pub fn words_of_graph()
    ensures { WordsOfGraph }
{}

/// What every word of lent memory holds, once a matrix was made in it and went through any calls,
/// granted or refused: the links as they are now, and past the matrix what it held before.
pub fn memory_follows()
    ensures { MemoryFollows }
{}

/// A bit matrix never refuses a link because a load is full (9).
pub fn never_full()
    ensures { NeverFull }
{}
