// Grids: the builder and both queries.
ghost use Rattle.std.specs.Prelude.{ℕ, ◌≡◌, List};
ghost use Rattle.mesh.specs.Mesh.{mesh_of};
ghost use Rattle.grid.specs.Settings.{settings_with};
ghost use Rattle.grid.specs.Grid.{build_grid};
ghost use Rattle.grid.specs.Builder.{grid_slices};
ghost use Rattle.grid.specs.Stored.{lent_grid};
ghost use Rattle.grid_query.specs.Nearest.{grid_nearest};
ghost use Rattle.grid_query.specs.Locate.{grid_locate};
ghost use Rattle.c_api.specs.Code.{nearest_answer, located_answer};
ghost use Rattle.c_api.specs.Lent.{build_left, build_left_of};

use c_api::{BuildAnswer, LocatedAnswer, NearestAnswer};
use vector::Vector3;

// The grid is written with this factor and margin; the answer has its side. After a refusal all slices are as they were.
#[unsafe(no_mangle)]
pub extern "C" fn koshirga_build_grid(
    positions: &[f64],
    starts: &[u32],
    entries: &[u16],
    cell_starts: &mut [u32],
    cell_ids: &mut [u16],
    triangle_starts: &mut [u32],
    triples: &mut [u16],
    factor: f64,
    margin: u32,
) -> BuildAnswer
    ensures { build_left result (grid_slices cell_starts.new cell_ids.new triangle_starts.new triples.new) ≡ build_left_of (build_grid (mesh_of positions.now starts.now entries.now) (settings_with factor margin) (grid_slices cell_starts.old cell_ids.old triangle_starts.old triples.old)) }
{
    c_api::grids::koshirga_build_grid(
        positions,
        starts,
        entries,
        cell_starts,
        cell_ids,
        triangle_starts,
        triples,
        factor,
        margin,
    )
}

#[unsafe(no_mangle)]
pub extern "C" fn koshirga_grid_nearest(
    positions: &[f64],
    factor: f64,
    margin: u32,
    side: u32,
    cell_starts: &[u32],
    cell_ids: &[u16],
    triangle_starts: &[u32],
    direction: Vector3,
) -> NearestAnswer
    ensures { (triples : List ℕ) → result ≡ nearest_answer (grid_nearest (lent_grid (settings_with factor margin) side cell_starts.now cell_ids.now triangle_starts.now triples) positions.now direction) }
{
    c_api::grids::koshirga_grid_nearest(
        positions,
        factor,
        margin,
        side,
        cell_starts,
        cell_ids,
        triangle_starts,
        direction,
    )
}

#[unsafe(no_mangle)]
pub extern "C" fn koshirga_grid_locate(
    positions: &[f64],
    factor: f64,
    margin: u32,
    side: u32,
    cell_starts: &[u32],
    cell_ids: &[u16],
    triangle_starts: &[u32],
    triples: &[u16],
    direction: Vector3,
) -> LocatedAnswer
    ensures { result ≡ located_answer (grid_locate (lent_grid (settings_with factor margin) side cell_starts.now cell_ids.now triangle_starts.now triples.now) positions.now direction) }
{
    c_api::grids::koshirga_grid_locate(
        positions,
        factor,
        margin,
        side,
        cell_starts,
        cell_ids,
        triangle_starts,
        triples,
        direction,
    )
}
