// Any meshes, also such as some row refuses: the call that reads whether the lists ascend, walk and grid.
ghost use Rattle.std.specs.Prelude.{◌<◌, ◌^◌};

use crate::places::{F64_BEFORE, U16_BEFORE, U32_BEFORE};
use crate::slices::{GridSlices, MeshSlices, cut, expect_built};
use records::{Fault, ListForm, Reader, Words};

// The lengths of order and queue; then the walk.
pub fn walk<F: ListForm>(reader: &mut Reader, mesh: &MeshSlices) -> Result<(), Fault> {
    let mut order = [U32_BEFORE; 64002];
    let mut queue = [U32_BEFORE; 64002];
    let order = cut(reader, &mut order)?;
    let queue = cut(reader, &mut queue)?;
    walk_into::<F>(reader, mesh, order, queue)
}

// The refusal, the entries read, the index, and both slices after the call.
pub fn walk_into<F: ListForm>(
    reader: &mut Reader,
    mesh: &MeshSlices,
    order: &mut [u32],
    queue: &mut [u32],
) -> Result<(), Fault> {
    let answer = c_api::meshes::koshirga_walk(
        mesh.positions,
        mesh.starts,
        mesh.entries,
        order,
        queue,
    );
    reader.expect(answer.refusal)?;
    reader.expect(answer.entries_read)?;
    reader.expect(answer.index as u64)?;
    F::expect(reader, order)?;
    F::expect(reader, queue)
}

// The lengths of a grid's four slices; the builder's answer, and the slices after the call.
// Room for the triples is a parameter: a proof about a number this large would list as many places.
fn grid_in<F: ListForm, const ROOM: usize>(
    reader: &mut Reader,
    mesh: &MeshSlices,
) -> Result<(), Fault>
    requires { ROOM < 2 ^ 32 }
{
    let mut cell_starts = [U32_BEFORE; 51895];
    let mut cell_ids = [U16_BEFORE; 326488];
    let mut triangle_starts = [U32_BEFORE; 36003];
    let mut triples = [U16_BEFORE; ROOM];
    let mut grid = GridSlices::cut(
        reader,
        &mut cell_starts,
        &mut cell_ids,
        &mut triangle_starts,
        &mut triples,
    )?;
    let answer = grid.build(mesh);
    expect_built(reader, answer)?;
    grid.expect::<F>(reader)
}

pub fn grid<F: ListForm>(reader: &mut Reader, mesh: &MeshSlices) -> Result<(), Fault> {
    grid_in::<F, 648000>(reader, mesh)
}

// The mark before the call that reads whether the lists ascend; the refusal, the index, and the mark after it.
fn reading(reader: &mut Reader, mesh: &MeshSlices) -> Result<(), Fault> {
    let mut lists_ascend: bool = reader.take()?;
    let answer = c_api::meshes::koshirga_mark_ascending(
        mesh.positions,
        mesh.starts,
        mesh.entries,
        &mut lists_ascend,
    );
    reader.expect(answer.refusal)?;
    reader.expect(answer.index as u64)?;
    reader.expect(lists_ascend)
}

// The lengths of a mesh's three slices, and the slices; then the reading of its lists, its walk, and its grid.
pub fn mesh(reader: &mut Reader) -> Result<(), Fault> {
    let mut positions = [F64_BEFORE; 128];
    let mut starts = [U32_BEFORE; 64];
    let mut entries = [U16_BEFORE; 1024];
    let mut mesh = MeshSlices::cut(reader, &mut positions, &mut starts, &mut entries)?;
    mesh.take(reader)?;
    reading(reader, &mesh)?;
    walk::<Words>(reader, &mesh)?;
    grid::<Words>(reader, &mesh)
}
