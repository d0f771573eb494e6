// What is proved of every grid, beyond what one call promises: theorems, each of a function that does nothing.
ghost use Rattle.grid.specs.Bounds.{SideIsBounded, UsualSideIsBounded, CellIdsAreBounded, HeldAreBounded, WiderMarginKeepsIds, UsualSideIsLeast, SideIsBetween};
ghost use Rattle.grid.specs.Told.{BuiltIsBelow, BuildIndexIsTold, PassedIsStored};

/// Bounds of a grid, for every factor and margin that the rows let pass.
pub fn bounds()
    ensures side { SideIsBounded }
    ensures usual_side { UsualSideIsBounded }
    ensures cell_ids { CellIdsAreBounded }
    ensures held { HeldAreBounded }
{}

/// A wider margin takes no id from a cell.
pub fn wider_margin_keeps_ids()
    ensures { WiderMarginKeepsIds }
{}

/// The tests by which a query knows a grid's side stand for root and ceiling.
pub fn side_is_tested()
    ensures usual { UsualSideIsLeast }
    ensures any { SideIsBetween }
{}

/// What the builder's answer tells, accepted or refused.
pub fn build_tells()
    ensures accepted { BuiltIsBelow }
    ensures refused { BuildIndexIsTold }
{}

/// What the rows of a stored grid tell that let it pass.
pub fn stored_rows_tell()
    ensures { PassedIsStored }
{}
