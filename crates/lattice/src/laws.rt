// Theorems about every lattice: each is a function's contract, and there is nothing to run.
ghost use Rattle.lattice.specs.Laws.{HasVertices, HasEntries, HasTwelveCorners, HasFiveOrSix, HasIds, ListsAreMutual, ListsNameOthers, ListsNameOnce, ListsAscend, PositionsAreAdmissible, PassesAdjacencyRows, PassesMeshRows, MarkStaysTruthful, IgnoresMark};

/// How many vertices and neighbours a lattice has.
pub fn counts()
    ensures vertices { HasVertices }
    ensures entries { HasEntries }
    ensures corners { HasTwelveCorners }
    ensures neighbours { HasFiveOrSix }
    ensures ids { HasIds }
{}

/// The neighbour lists of a lattice are mutual and ascend, and each names other vertices, each once.
pub fn neighbour_lists()
    ensures mutual { ListsAreMutual }
    ensures no_own_vertex { ListsNameOthers }
    ensures no_repeat { ListsNameOnce }
    ensures ascending { ListsAscend }
{}

/// Every lattice passes the rows by which a mesh may be refused.
pub fn mesh_rows()
    ensures positions { PositionsAreAdmissible }
    ensures adjacency { PassesAdjacencyRows }
    ensures mesh { PassesMeshRows }
{}

/// A mark that is true of the mesh before a lattice's call is true of the mesh that it leaves, and nothing else depends on the mark.
pub fn mark()
    ensures truthful { MarkStaysTruthful }
    ensures nothing_depends { IgnoresMark }
{}
