// Theorems about every vector: each is a function's contract, and there is nothing to run.
ghost use Rattle.vector.specs.Laws.{DecidedByLength, StaysAdmissible};

/// Which vectors rows 5 and 9 let pass: the squared length decides, and a direction that passes may be normalised.
pub fn admissible_vectors()
    ensures by_length { DecidedByLength }
    ensures normalized { StaysAdmissible }
{}
