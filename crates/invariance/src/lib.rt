// What every list of renumberings keeps: theorems over the definitions that the contracts of the crates below name. A theorem is the
// contract of a function without code.
#![tactic(auto)]

ghost use Rattle.invariance.specs.Laws.{RenumberingInvariance, LatticeInvariance, LatticeBuilds, RepeatsCount, HeldAlike, CallsTruthful, CallsSame};

/// What a list of renumberings leaves of a mesh, of its data and of the grids that are built of it, as one claim about the whole list.
pub fn renumbering_invariance()
    ensures { RenumberingInvariance }
{}

/// The same of every lattice, and that the builder answers of it after the list what it answers before.
pub fn lattice_invariance()
    ensures claim { LatticeInvariance }
    ensures builds { LatticeBuilds }
{}

/// Of a mesh with a list that names a vertex twice, a renumbering may change how many triangles there are: so the claim about the builder
/// leaves such meshes out.
pub fn repeats_count()
    ensures { RepeatsCount }
{}

/// The builder counts as many conversions held at an end after the list as before.
pub fn held_conversions_kept()
    ensures { HeldAlike }
{}

/// What a list of renumberings does to the mark that the lists ascend, and what depends on it.
pub fn mark_through_calls()
    ensures truthful { CallsTruthful }
    ensures nothing_depends { CallsSame }
{}
