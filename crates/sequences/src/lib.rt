// Definitions and laws of lists by index, which the other crates cite: they stand in specs/ and proofs/. Nothing to run.
#![tactic(auto)]

ghost use Rattle.sequences.specs.Worked.{WorkedLists};

/// What the definitions give of small lists.
pub fn worked_lists()
    ensures { WorkedLists }
{}
