// The extent of a grid: its cells, and their numbers.
ghost use Rattle.std.specs.Prelude.{◌≡◌, ◌+◌, ◌*◌, ◌<◌};
ghost use Rattle.grid.specs.Passes.{GridExtent};
ghost use Rattle.grid.specs.Cells.{cell_count, across_cells};

use crate::placement::{across_cells, cell_number};

// How many cells lie along the edge of a face, and how far the cells of a vertex reach to each side of its own: as many as a grid can be built with.
#[derive(Clone, Copy)]
pub struct Extent {
    pub side: usize,
    pub margin: usize,
    pub ghost buildable: { GridExtent margin side },
}

impl Extent {
    // How many cells there are, on all six faces.
    pub fn cells(self) -> usize
        ensures { result ≡ cell_count self.side }
    {
        6 * (self.side * self.side)
    }

    // The number of a cell, from its face, row and column. A face is its number too, 0 to 5, as document 01 has it.
    pub fn cell_number(self, face: usize, row: usize, column: usize) -> usize
        requires face_number { face < 6 }
        requires row_inside { row < self.side }
        requires column_inside { column < self.side }
        ensures number { result ≡ face * (self.side * self.side) + (row * self.side + column) }
        ensures inside { result < cell_count self.side }
    {
        cell_number(face, row, column, self.side)
    }

    // How far a point lies across a face, counted in cells.
    pub fn across_cells(self, u: f64, d: f64) -> f64
        ensures { result ≡ across_cells self.side u d }
    {
        across_cells(self.side, u, d)
    }
}
