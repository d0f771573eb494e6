// Theorems about both calls, each the contract of a function without code.
ghost use Rattle.steps.specs.Laws.{StepsAreShortest, StepsAreTheWalks, EntriesAreTheWalks, RefusedWithoutPath, AnsweredByPath, EqualEndsAtOnce, ListIsFront, EveryNumberPasses, RefusedLeavesList, BothCallsAgree, BackAsForth, StepsIndex, WithinIndex, LatticeCases, RowCases, FallingCase, ListCases};

/// The number of steps is the length of a path, no path is shorter, and it is below the vertex count.
pub fn steps_are_shortest()
    ensures { StepsAreShortest }
{}

/// A search that stops at its target tells what the complete walk from its start tells, and reads no more.
pub fn steps_beside_the_walk()
    ensures steps { StepsAreTheWalks }
    ensures entries { EntriesAreTheWalks }
{}

/// Row 15 refuses exactly where no path leads to the target, and never where both ends are one vertex.
pub fn path_decides()
    ensures refused { RefusedWithoutPath }
    ensures answered { AnsweredByPath }
    ensures equal_ends { EqualEndsAtOnce }
{}

/// The list is the front of the complete walk's queue, with the vertices that paths of so many steps at most lead to. No number of steps is refused.
pub fn list_is_front()
    ensures front { ListIsFront }
    ensures accepted { EveryNumberPasses }
    ensures refused { RefusedLeavesList }
{}

/// A vertex stands in the list exactly where the other call answers no more steps. Where neighbours are mutual, as many steps lead back as forth.
pub fn calls_agree()
    ensures within { BothCallsAgree }
    ensures back { BackAsForth }
{}

/// What the index of a refusal tells.
pub fn refusals_tell()
    ensures steps { StepsIndex }
    ensures within { WithinIndex }
{}

/// Both calls on the lattice of frequency 1, on vertices in a row, on starts that fall, and on lists with repeats or of one direction.
pub fn worked_steps()
    ensures lattice { LatticeCases }
    ensures row { RowCases }
    ensures falling { FallingCase }
    ensures lists { ListCases }
{}
