// What is proved of every query, beyond what one call promises: theorems, each of a function that does nothing.
ghost use Rattle.grid_query.specs.CellOrder.{CiNeverFalls, CjNeverFalls, GridCellsFollow};
ghost use Rattle.grid_query.specs.KeptTriangle.{KeptWhicheverZero, LocatedWhicheverZero, AnyMinimumIsOpen, EarlierIsOpen};
ghost use Rattle.grid_query.specs.Told.{DirectionHasCell, VertexIsFound, TriangleIsLocated, QueryReadsPair, NearestIndexIsTold, LocationIndexIsTold, NeverSeventeen};

/// A direction that slides across a face enters no cell again that it has left: with a larger u no ci is lower, with a larger w no cj, for every side.
pub fn cells_never_run_backwards()
    ensures ci { CiNeverFalls }
    ensures cj { CjNeverFalls }
    ensures every_grid { GridCellsFollow }
{}

/// Every direction has one of a grid's cells.
pub fn direction_has_cell()
    ensures { DirectionHasCell }
{}

/// The sign of a least that is a zero decides no triangle: the one kept is the same whichever zero a minimum returns.
pub fn zero_decides_no_triangle()
    ensures kept { KeptWhicheverZero }
    ensures located { LocatedWhicheverZero }
    ensures any_minimum { AnyMinimumIsOpen }
    ensures earlier { EarlierIsOpen }
{}

/// What the answer of an accepted query tells.
pub fn answers_tell()
    ensures vertex { VertexIsFound }
    ensures triangle { TriangleIsLocated }
    ensures pair { QueryReadsPair }
{}

/// What the refusal of a query tells: its index, and that its number is never 17.
pub fn refusals_tell()
    ensures nearest { NearestIndexIsTold }
    ensures location { LocationIndexIsTold }
    ensures never_17 { NeverSeventeen }
{}
