// A grid in buffers for the graphics card: its lists one behind another in a slice of u32, and its positions, converted to binary32, in one of f32.
#![tactic(auto)]

ghost use Rattle.std.specs.Prelude.{◌≡◌};
ghost use Rattle.packing.specs.Packing.{pack, pack_outcome};

pub mod laws;
mod rows;
mod written;

use crate::rows::check;
use crate::written::write_grid;
use grid::stored_grid::StoredGrid;
use refusal::Refusal;

// How many places of the two slices are taken.
#[derive(Clone, Copy)]
pub struct Taken {
    pub words: usize,
    pub floats: usize,
}

// The two slices, lent for writing, and what is taken of them. A function that is lent them to change says that they are still the same two: `same_words`,
// `same_floats`.
#[derive(Drop)]
pub struct Buffers<'a> {
    pub words: &'a mut [u32],
    pub floats: &'a mut [f32],
    pub taken: Taken,
}

// What a viewer needs to find a grid in the two slices: how many vertices it has, its side, and the offsets at which its lists and positions begin, each
// counted in elements of its own slice.
#[repr(C)]
#[derive(Clone, Copy, Debug, Default, PartialEq, Eq)]
pub struct LevelRecord {
    pub vertices: u32,
    pub side: u32,
    pub cell_starts: u32,
    pub cell_ids: u32,
    pub triangle_starts: u32,
    pub triples: u32,
    pub positions: u32,
}

// Packs a grid behind what is taken of the two slices. Refused are rows 2, 19, 20, 2, 3, 17, 18, 4, 5 and 8, before the first write.
#[tactic(auto, unfolding(crate::specs::Packing::pack))]
pub fn pack(
    grid: &StoredGrid,
    positions: &[f64],
    buffers: &mut Buffers,
) -> Result<LevelRecord, Refusal>
    ensures outcome { pack_outcome result buffers.new.words.now buffers.new.floats.now ≡ pack grid.now positions.now buffers.old.taken buffers.old.words.now buffers.old.floats.now }
    ensures same_words { buffers.new.words.ghost_name ≡ buffers.old.words.ghost_name }
    ensures same_floats { buffers.new.floats.ghost_name ≡ buffers.old.floats.ghost_name }
    ensures same_taken { buffers.new.taken ≡ buffers.old.taken }
{
    check(grid, positions, buffers)?;
    Ok(write_grid(grid, positions, buffers))
}
