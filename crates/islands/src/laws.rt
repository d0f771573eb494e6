// Theorems about the walk over all islands, each the contract of a function without code.
ghost use Rattle.islands.specs.Laws.{CheckedIsAccepted, NeverUnreached, RefusedLeavesSlices, EveryVertexNumbered, StartsAscend, RootsAreLowest, IslandIsWalk, IslandIsMesh, PathsJoin, OneIslandIsTheWalk, SeveralAreUnreached, IslandsIndex, MutualCases, OneWayCases, RefusedCases};

/// Every mesh that rows 2 to 4 let pass is walked, in slices that have one place a vertex. Row 13 refuses none, and a refusal leaves all slices.
pub fn islands_accept()
    ensures accepted { CheckedIsAccepted }
    ensures never { NeverUnreached }
    ensures refused { RefusedLeavesSlices }
{}

/// Order and queue are permutations of all ids, each the other's inverse; the entries read are all entries.
pub fn islands_number_all()
    ensures { EveryVertexNumbered }
{}

/// The islands' starts ascend strictly from 0, and each island begins at the lowest id that had no number.
pub fn islands_start()
    ensures ascend { StartsAscend }
    ensures lowest { RootsAreLowest }
{}

/// Where neighbours are mutual, each island is in the order of a walk of its own: from its root over the mesh's lists, and on the mesh that has its vertices alone.
pub fn island_by_itself()
    ensures walk { IslandIsWalk }
    ensures mesh { IslandIsMesh }
{}

/// Where neighbours are mutual, two vertices share an island exactly where a path joins them.
pub fn island_is_joined()
    ensures { PathsJoin }
{}

/// Where vertex 0 reaches all, the call leaves what the ordinary walk leaves and answers one island. Row 13 refuses the ordinary walk exactly where there are several.
pub fn islands_beside_the_walk()
    ensures one { OneIslandIsTheWalk }
    ensures several { SeveralAreUnreached }
{}

/// What the index of a refusal tells.
pub fn islands_refusals_tell()
    ensures { IslandsIndex }
{}

/// The call on lists that are mutual, on lists that are not, on slices that are too short, and on starts that fall.
pub fn worked_islands()
    ensures mutual_lists { MutualCases }
    ensures one_way { OneWayCases }
    ensures refused { RefusedCases }
{}
