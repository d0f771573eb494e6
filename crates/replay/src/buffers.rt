// Grids packed into slices of words and floats: any grids, also such as some row refuses, and those of lattices one behind another.
use crate::places::{F32_BEFORE, F64_BEFORE, FACTOR, MARGIN, U16_BEFORE, U32_BEFORE};
use crate::slices::{Grid, GridSlices, LatticeSlices, MeshSlices, cut, expect_built};
use crate::{meshes, renumberings};
use c_api::PackAnswer;
use grid::settings::Settings;
use packing::Taken;
use records::{Fault, Hashes, ListForm, Reader, Words};

// The two slices.
#[derive(Drop)]
struct BufferSlices<'a> {
    words: &'a mut [u32],
    floats: &'a mut [f32],
}

impl<'a> BufferSlices<'a> {
    fn cut(
        reader: &mut Reader,
        words: &'a mut [u32],
        floats: &'a mut [f32],
    ) -> Result<BufferSlices<'a>, Fault> {
        let words = cut(reader, words)?;
        let floats = cut(reader, floats)?;
        Ok(BufferSlices { words, floats })
    }

    // The call that packs a grid.
    fn pack(&mut self, grid: Grid, settings: Settings, taken: Taken) -> PackAnswer {
        c_api::buffers::koshirga_pack(
            grid.positions,
            settings.factor,
            settings.margin,
            grid.side,
            grid.cell_starts,
            grid.cell_ids,
            grid.triangle_starts,
            grid.triples,
            self.words,
            taken.words,
            self.floats,
            taken.floats,
        )
    }

    // A float is compared by its bit pattern. A NaN, which is never packed, is a difference.
    #[inline(never)]
    fn expect<F: ListForm>(&self, reader: &mut Reader) -> Result<(), Fault> {
        F::expect(reader, self.words)?;
        let mut patterns = [0u32; 14000];
        for (pattern, float) in patterns.iter_mut().zip(self.floats.iter()) {
            if float.is_nan() {
                return Err(Fault::Different);
            }
            *pattern = float.to_bits();
        }
        let filled = patterns.get(..self.floats.len()).ok_or(Fault::TooGreat)?;
        F::expect(reader, filled)
    }
}

// The refusal, the level record, the index.
fn expect_packed(reader: &mut Reader, answer: PackAnswer) -> Result<(), Fault> {
    let level = answer.level;
    reader.expect(answer.refusal)?;
    reader.expect_list(&[
        level.vertices,
        level.side,
        level.cell_starts,
        level.cell_ids,
        level.triangle_starts,
        level.triples,
        level.positions,
    ])?;
    reader.expect(answer.index as u64)
}

// The counts of taken places, which may be any.
fn take_taken(reader: &mut Reader) -> Result<Taken, Fault> {
    let words = reader.take_length(usize::MAX)?;
    let floats = reader.take_length(usize::MAX)?;
    Ok(Taken { words, floats })
}

// The lengths of words and floats, and how many of each are taken; the answer, and both slices after the call.
#[inline(never)]
fn call(reader: &mut Reader, grid: Grid, settings: Settings) -> Result<(), Fault> {
    let mut words = [U32_BEFORE; 4096];
    let mut floats = [F32_BEFORE; 128];
    let mut buffers = BufferSlices::cut(reader, &mut words, &mut floats)?;
    let taken = take_taken(reader)?;
    let answer = buffers.pack(grid, settings, taken);
    expect_packed(reader, answer)?;
    buffers.expect::<Words>(reader)
}

// The lengths of positions, cell starts, cell ids, triangle starts and triples, the side, and these slices; the factor and the margin; then the call.
pub fn packing(reader: &mut Reader) -> Result<(), Fault> {
    let mut positions = [F64_BEFORE; 128];
    let mut cell_starts = [U32_BEFORE; 128];
    let mut cell_ids = [U16_BEFORE; 1024];
    let mut triangle_starts = [U32_BEFORE; 64];
    let mut triples = [U16_BEFORE; 4096];
    let positions = cut(reader, &mut positions)?;
    let mut slices = GridSlices::cut(
        reader,
        &mut cell_starts,
        &mut cell_ids,
        &mut triangle_starts,
        &mut triples,
    )?;
    let side = reader.take()?;
    reader.take_list(positions)?;
    slices.take(reader)?;
    let factor = reader.take()?;
    let margin = reader.take()?;
    let grid = slices.grid(positions, side);
    call(reader, grid, Settings { factor, margin })
}

// The lengths of order and queue, the walk, and the renumbering by its order.
#[inline(never)]
fn renumber(reader: &mut Reader, mesh: &mut MeshSlices) -> Result<(), Fault> {
    let mut order = [U32_BEFORE; 4002];
    let mut queue = [U32_BEFORE; 4002];
    let order = cut(reader, &mut order)?;
    let queue = cut(reader, &mut queue)?;
    meshes::walk_into::<Hashes>(reader, mesh, order, queue)?;
    renumberings::with_scratch(reader, mesh, &mut [], order)
}

// The lengths of the grid's slices, and the builder's answer; then that of the packing. What is taken behind it.
#[inline(never)]
fn packed_grid(
    reader: &mut Reader,
    mesh: &MeshSlices,
    buffers: &mut BufferSlices,
    taken: Taken,
) -> Result<Taken, Fault> {
    let mut cell_starts = [U32_BEFORE; 5767];
    let mut cell_ids = [U16_BEFORE; 60000];
    let mut triangle_starts = [U32_BEFORE; 4003];
    let mut triples = [U16_BEFORE; 72000];
    let mut slices = GridSlices::cut(
        reader,
        &mut cell_starts,
        &mut cell_ids,
        &mut triangle_starts,
        &mut triples,
    )?;
    let built = slices.build(mesh);
    expect_built(reader, built)?;
    let grid = slices.grid(mesh.positions, built.side);
    let settings = Settings {
        factor: FACTOR,
        margin: MARGIN,
    };
    let answer = buffers.pack(grid, settings, taken);
    expect_packed(reader, answer)?;
    Ok(Taken {
        words: answer.level.triples as usize + grid.triples.len(),
        floats: answer.level.positions as usize + grid.positions.len(),
    })
}

// n, the lengths of the lattice's slices and its refusal; whether it is renumbered, and then how; its grid, packed behind what is taken.
#[inline(never)]
fn packed_lattice(
    reader: &mut Reader,
    buffers: &mut BufferSlices,
    taken: Taken,
) -> Result<Taken, Fault> {
    let mut positions = [F64_BEFORE; 12006];
    let mut starts = [U32_BEFORE; 4003];
    let mut entries = [U16_BEFORE; 24000];
    let mut ids = [U16_BEFORE; 4620];
    let mut lattice = LatticeSlices::cut(
        reader,
        &mut positions,
        &mut starts,
        &mut entries,
        &mut ids,
    )?;
    let mut lists_ascend = false;
    let refusal = lattice.write(&mut lists_ascend);
    reader.expect(refusal)?;
    if reader.take()? {
        renumber(reader, &mut lattice.mesh)?;
    }
    packed_grid(reader, &lattice.mesh, buffers, taken)
}

// The lengths of words and floats, and how many lattices; each of them, packed behind the last. Then both slices.
#[inline(never)]
pub fn packed_lattices(reader: &mut Reader) -> Result<(), Fault> {
    let mut words = [U32_BEFORE; 180000];
    let mut floats = [F32_BEFORE; 14000];
    let mut buffers = BufferSlices::cut(reader, &mut words, &mut floats)?;
    let count: u32 = reader.take()?;
    let mut taken = Taken {
        words: 0,
        floats: 0,
    };
    for _ in 0..count {
        taken = packed_lattice(reader, &mut buffers, taken)?;
    }
    buffers.expect::<Hashes>(reader)
}
