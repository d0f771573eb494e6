// The rows of a stored grid, which a call tests before it reads a part of it.
ghost use Rattle.std.specs.Prelude.{◌≡◌, true, Ok};
ghost use Rattle.mesh.specs.Rows.{positions_fit};
ghost use Rattle.grid.specs.Stored.{with_lists, side_rows, stored_rows};

use crate::extent::Extent;
use crate::settings::Settings;
use crate::side::VertexCount;
use mesh::{falling_start, positions_fit, starts_span, vertex_count};
use refusal::Refusal;
use std::marker::Model;

// A stored grid as a call is lent it, beside the positions. A contract sees it as a `Grid`.
#[derive(Drop)]
pub struct StoredGrid<'a> {
    pub settings: Settings,
    pub side: usize,
    pub cell_starts: &'a [u32],
    pub cell_ids: &'a [u16],
    pub triangle_starts: &'a [u32],
    pub triples: &'a [u16],
}

impl<'a> Model for StoredGrid<'a> {
    ghost use Rattle.grid.specs.Grid.{Grid};
    ghost use Rattle.grid.specs.Stored.{lent_grid};

    ghost Value = { Grid };

    ghost view = { λ g. lent_grid g.settings g.side g.cell_starts.now g.cell_ids.now g.triangle_starts.now g.triples.now };
}

impl<'a> StoredGrid<'a> {
    ghost use Rattle.std.specs.Prelude.{◌≡◌, ℕ, ◌+◌, ◌&&◌, ◌==◌, Ok, List, Float, length};
    ghost use Rattle.grid.specs.Cells.{cell_count};
    ghost use Rattle.grid.specs.Passes.{GridExtent};
    ghost use Rattle.grid.specs.Settings.{settings_rows};
    ghost use Rattle.mesh.specs.Mesh.{vertex_count};
    ghost use Rattle.grid.specs.Stored.{cell_starts_span, triangle_starts_span, whole_starts_rows};

    // Its extent, where its pair and its side have passed.
    #[inline(always)]
    pub fn extent(&self) -> Extent
        requires { GridExtent self.now.settings.margin self.now.side }
        ensures side { result.side ≡ self.now.side }
        ensures margin { result.margin ≡ self.now.settings.margin }
    {
        Extent {
            side: self.side,
            margin: self.settings.margin as usize,
        }
    }

    // Whether both start lists are as long as the extent and the count ask for.
    #[inline(always)]
    fn lengths_fit(&self, extent: Extent, vertices: VertexCount) -> bool
        ensures { result ≡ ((length self.now.cell_starts == cell_count extent.side + 1) && (length self.now.triangle_starts == vertices.count + 1)) }
    {
        (self.cell_starts.len() == extent.cells() + 1)
            & (self.triangle_starts.len() == vertices.count + 1)
    }

    // Rows 2 and 3, behind those of the pair: the side, then the lengths of both start lists.
    fn check_side(&self, positions: &[f64]) -> Result<(), Refusal>
        requires positions_fit { positions_fit positions.now ≡ true }
        requires pair_fits { settings_rows self.now.settings (Ok tt) ≡ Ok tt }
        ensures { result ≡ side_rows self.now positions.now (Ok tt) }
    {
        let vertices = VertexCount {
            count: vertex_count(positions),
        };
        if !vertices.side_is(self.side, self.settings.factor) {
            return Err(Refusal::Count);
        }
        if !self.lengths_fit(self.extent(), vertices) {
            return Err(Refusal::Starts);
        }
        Ok(())
    }

    // Rows 2, 19, 20, 2 and 3, which come before a part of the grid is read. Neither ids nor triples matter to them.
    #[tactic(auto, using(crate::proofs::Stored::stored_whatever_lists))]
    pub fn check(&self, positions: &[f64]) -> Result<(), Refusal>
        ensures rows { result ≡ stored_rows self.now positions.now (Ok tt) }
        ensures whatever_lists { (cell_ids triples : List ℕ) → result ≡ stored_rows (with_lists self.now cell_ids triples) positions.now (Ok tt) }
    {
        if !positions_fit(positions) {
            return Err(Refusal::Count);
        }
        self.settings.check()?;
        self.check_side(positions)
    }

    // Row 17: the cell starts begin at 0 and end at the count of cell ids.
    fn cell_starts_span(&self) -> bool
        requires { length self.now.cell_starts ≡ cell_count self.now.side + 1 }
        ensures { result ≡ cell_starts_span self.now }
    {
        starts_span(self.cell_starts.len() - 1, self.cell_starts, self.cell_ids)
    }

    // Row 17: the triangle starts begin at 0 and end at the count of triples, of three ids each.
    #[tactic(auto, unfolding(crate::specs::Stored::triangle_starts_span))]
    fn triangle_starts_span(&self, vertices: usize) -> bool
        requires { length self.now.triangle_starts ≡ vertices + 1 }
        ensures { (positions : List Float) → vertex_count positions ≡ vertices → result ≡ triangle_starts_span self.now positions }
    {
        (self.triangle_starts[0] == 0)
            & (self.triangle_starts[vertices] as usize * 3 == self.triples.len())
    }

    // Rows 17 and 18 of both start lists, read whole, behind the rows of `check`.
    #[tactic(auto, unfolding(crate::specs::Stored::whole_starts_rows))]
    pub fn check_starts(&self, positions: &[f64]) -> Result<(), Refusal>
        requires { stored_rows self.now positions.now (Ok tt) ≡ Ok tt }
        ensures { result ≡ whole_starts_rows self.now positions.now }
    {
        if !self.cell_starts_span() {
            return Err(Refusal::StartsSpan);
        }
        if !self.triangle_starts_span(vertex_count(positions)) {
            return Err(Refusal::StartsSpan);
        }
        if let Some(index) = falling_start(self.cell_starts) {
            return Err(Refusal::StartsFall { index });
        }
        if let Some(index) = falling_start(self.triangle_starts) {
            return Err(Refusal::StartsFall { index });
        }
        Ok(())
    }

    // Whether a stored grid of the usual factor passes these rows; where it says no, `check` finds the row. It is short and takes no root, so that a query of a usual grid isn't held up by a call.
    #[inline(always)]
    pub fn usual_passes(&self, positions: &[f64]) -> bool
        ensures rows { result ≡ true → stored_rows self.now positions.now (Ok tt) ≡ Ok tt }
        ensures whatever_lists { result ≡ true → (cell_ids triples : List ℕ) → stored_rows (with_lists self.now cell_ids triples) positions.now (Ok tt) ≡ Ok tt }
    {
        if !positions_fit(positions) {
            return false;
        }
        if !self.settings.is_usual() {
            return false;
        }
        let vertices = VertexCount {
            count: vertex_count(positions),
        };
        if !vertices.usual_side_is(self.side) {
            return false;
        }
        self.lengths_fit(self.extent(), vertices)
    }
}
