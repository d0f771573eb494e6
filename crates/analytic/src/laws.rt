// Theorems about every query: each is a function's contract, and there is nothing to run.
ghost use Rattle.analytic.specs.Laws.{LocatesBelowCount, NearestIsBelowCount};

/// Every id that a query gives out is below 10n² + 2.
pub fn ids_below_vertex_count()
    ensures located { LocatesBelowCount }
    ensures nearest { NearestIsBelowCount }
{}
