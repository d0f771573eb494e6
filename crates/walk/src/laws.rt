// Theorems about the walk, each the contract of a function without code.
ghost use Rattle.walk.specs.Laws.{WalkFollowsPaths, WalkAccepted, UnreachedNumbered, WalkIndex, TwelveWalked};

/// On a mesh that rows 2 to 4 let pass, the complete walk from any vertex reaches exactly the vertices that a path leads to, each once.
pub fn walk_follows_paths()
    ensures { WalkFollowsPaths }
{}

/// What a walk leaves that is accepted, what one leaves that does not reach every vertex, and what the index of a refusal tells.
pub fn walk_outcomes()
    ensures accepted { WalkAccepted }
    ensures unreached { UnreachedNumbered }
    ensures index { WalkIndex }
{}

/// The walk of the lattice of frequency 1.
pub fn worked_walk()
    ensures { TwelveWalked }
{}
