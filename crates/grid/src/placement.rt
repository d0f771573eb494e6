// Placing: how far a vertex lies across a face, and the rows and columns of cells that take it in.
ghost use Rattle.std.specs.Prelude.{◌≡◌, ◌+◌, ◌-◌, ◌*◌, ◌<◌, ◌≤◌};
ghost use Rattle.mesh.specs.Rows.{greatest_count};
ghost use Rattle.grid.specs.Passes.{greatest_side};
ghost use Rattle.grid.specs.Cells.{cell_count, across_cells};
ghost use Rattle.grid.specs.Held.{held_one};
ghost use Rattle.grid.specs.Placing.{CellsBelow, Near, Placed};

use crate::cube_face::cube_face_project;
use crate::extent::Extent;
use binary64::{Conversion, to_i64};
use fused::mul_add_halves;
use vector::Vector3;

// Rows or columns of cells, from the start up to the end, which is not among them. The library's `Range` is no `Copy`.
#[derive(Clone, Copy)]
pub struct CellRange {
    pub start: usize,
    pub end: usize,
}

impl CellRange {
    // How many rows or columns they are.
    pub(crate) fn len(self) -> usize
        ensures value { result ≡ self.end - self.start }
    {
        self.end.saturating_sub(self.start)
    }
}

// The cells of a face that a vertex is placed in: rows and columns. And how many of the conversions that gave them were held at an end of the signed range.
#[derive(Clone, Copy)]
pub struct Placement {
    pub rows: CellRange,
    pub columns: CellRange,
    pub held: usize,
}

// How many cells a coordinate below 0 lies before the first one, 4 for all that lie further: no margin reaches from there.
fn cells_below(coordinate: i64) -> usize
    ensures { CellsBelow coordinate result }
{
    coordinate.unsigned_abs().min(4) as usize
}

// The number of a cell, from its face, row and column. This and `across_cells` are of every g up to `greatest_side` and `greatest_count`, and so of sides that no `Extent` has; its methods call them.
#[inline(always)]
pub fn cell_number(face: usize, row: usize, column: usize, g: usize) -> usize
    requires face_number { face < 6 }
    requires row_inside { row < g }
    requires column_inside { column < g }
    requires few_cells { g ≤ greatest_side }
    ensures { (result ≡ face * (g * g) + (row * g + column)) × (result < cell_count g) }
{
    face * (g * g) + (row * g + column)
}

// How far a point lies across a face of g cells, counted in cells.
pub fn across_cells(g: usize, u: f64, d: f64) -> f64
    requires { g ≤ greatest_count }
    ensures { result ≡ across_cells g u d }
{
    mul_add_halves(u / d) * (g as f64)
}

// 1 for a conversion that was held at an end of the signed range.
fn held_one(how: Conversion) -> usize
    ensures { result ≡ held_one how }
{
    usize::from(how == Conversion::Held)
}

impl Extent {
    // The rows or columns that are near the converted coordinate. Near an end of the signed range there are none.
    fn cells_near(self, coordinate: i64) -> CellRange
        ensures { Near self.margin self.side coordinate result }
    {
        if coordinate < 0 {
            let below = cells_below(coordinate);
            if below > self.margin {
                return CellRange { start: 0, end: 0 };
            }
            let reach = self.margin + 1 - below;
            return CellRange {
                start: 0,
                end: reach.min(self.side),
            };
        }
        let cell = coordinate as usize;
        if cell >= self.side + self.margin {
            return CellRange {
                start: self.side,
                end: self.side,
            };
        }
        let reach = cell + self.margin + 1;
        CellRange {
            start: cell.saturating_sub(self.margin),
            end: reach.min(self.side),
        }
    }

    // The cells of the face that the vertex is placed in. Inlined, so that no placement goes through memory.
    #[inline(always)]
    pub(crate) fn place(self, v: Vector3, face: usize) -> Placement
        ensures { Placed self.margin self.side face v result }
    {
        let seen = cube_face_project(face, v);
        if seen.d > 0.0 {
            let row = to_i64(self.across_cells(seen.u, seen.d));
            let column = to_i64(self.across_cells(seen.w, seen.d));
            Placement {
                rows: self.cells_near(row.whole),
                columns: self.cells_near(column.whole),
                held: held_one(row.how) + held_one(column.how),
            }
        } else {
            Placement {
                rows: CellRange { start: 0, end: 0 },
                columns: CellRange { start: 0, end: 0 },
                held: 0,
            }
        }
    }
}
