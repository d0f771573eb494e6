// The rows of a packing.
ghost use Rattle.std.specs.Prelude.{◌≡◌, ◌+◌, length};
ghost use Rattle.packing.specs.Packing.{has_places, room_for, id_rows, packing_rows};

use crate::Buffers;
use grid::stored_grid::StoredGrid;
use mesh::{ids_below, positions_admissible, vertex_count};
use refusal::Refusal;

// The greatest offset that a record can tell, 2³² − 1.
const GREATEST_OFFSET: usize = u32::MAX as usize;

// Rows 4 and 5: all ids, then all positions.
#[tactic(auto, unfolding(crate::specs::Packing::id_rows))]
fn check_ids(grid: &StoredGrid, positions: &[f64]) -> Result<(), Refusal>
    ensures { result ≡ id_rows grid.now positions.now }
{
    let count = vertex_count(positions);
    if !ids_below(count, grid.cell_ids) {
        return Err(Refusal::Id);
    }
    if !ids_below(count, grid.triples) {
        return Err(Refusal::Id);
    }
    if !positions_admissible(positions) {
        return Err(Refusal::Position);
    }
    Ok(())
}

// Whether a slice of so many places has those that are wanted behind the taken ones. No sum is made that might not fit a word.
#[tactic(auto, unfolding(crate::specs::Packing::has_places))]
fn has_places(taken: usize, wanted: usize, places: usize) -> bool
    ensures { result ≡ has_places taken wanted places }
{
    taken <= places && wanted <= places - taken
}

// Row 8: whether both slices have room, and every offset can be told. No offset of words is above that of the triples.
fn has_room(grid: &StoredGrid, positions: &[f64], buffers: &Buffers) -> bool
    ensures { result ≡ room_for grid.now positions.now buffers.now.taken (length buffers.now.words.now) (length buffers.now.floats.now) }
{
    let taken = buffers.taken;
    let before_triples = grid.cell_starts.len() + grid.cell_ids.len() + grid.triangle_starts.len();
    let all_lists = before_triples + grid.triples.len();
    has_places(taken.words, all_lists, buffers.words.len())
        & has_places(taken.floats, positions.len(), buffers.floats.len())
        & has_places(taken.words, before_triples, GREATEST_OFFSET)
        & (taken.floats <= GREATEST_OFFSET)
}

// The rows of a call, of which the last is that of the lent space.
#[tactic(auto, unfolding(crate::specs::Packing::packing_rows))]
pub fn check(grid: &StoredGrid, positions: &[f64], buffers: &Buffers) -> Result<(), Refusal>
    ensures { result ≡ packing_rows grid.now positions.now buffers.now.taken (length buffers.now.words.now) (length buffers.now.floats.now) }
{
    grid.check(positions)?;
    grid.check_starts(positions)?;
    check_ids(grid, positions)?;
    if !has_room(grid, positions, buffers) {
        return Err(Refusal::Room);
    }
    Ok(())
}
