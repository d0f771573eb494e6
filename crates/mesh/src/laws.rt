// Theorems about the rows of a mesh and the reading call, each the contract of a function without code.
ghost use Rattle.mesh.specs.Laws.{FallIsFirst, NoneFalls, SameVerdict, SameAccepted, ReadingExact, ReadingTruthful, ReadingSame, ReadingIndex};

/// The index that row 18 carries is that of the first start below the one before it.
pub fn first_fall()
    ensures named { FallIsFirst }
    ensures none { NoneFalls }
{}

/// Rows 17 and 18 refuse what row 3 refused before them, and nothing else.
pub fn row_three_divided()
    ensures verdict { SameVerdict }
    ensures accepted { SameAccepted }
{}

/// What the reading call does to the mark that the lists ascend, and what its refusals tell.
pub fn mark_by_reading()
    ensures exact { ReadingExact }
    ensures truthful { ReadingTruthful }
    ensures nothing_depends { ReadingSame }
    ensures index { ReadingIndex }
{}
