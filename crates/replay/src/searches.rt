// Steps between two vertices of any mesh, the vertices within so many steps of one, and the walk over all islands, also such as some row refuses.
use crate::places::{F64_BEFORE, U16_BEFORE, U32_BEFORE};
use crate::slices::{MeshSlices, cut};
use records::{Fault, Reader, all_are};

// The row of a target that no path reaches: its refusal leaves scratch free.
const NO_PATH: u32 = 15;

// From, to, and the lengths of order and queue; the refusal, the steps, the entries read, the index. After a refusal but that of row 15 the scratch is
// as it was.
fn search(reader: &mut Reader, mesh: &MeshSlices) -> Result<(), Fault> {
    let mut order = [U32_BEFORE; 1024];
    let mut queue = [U32_BEFORE; 1024];
    let from = reader.take()?;
    let to = reader.take()?;
    let order = cut(reader, &mut order)?;
    let queue = cut(reader, &mut queue)?;
    let answer = c_api::meshes::koshirga_steps_between(
        mesh.positions,
        mesh.starts,
        mesh.entries,
        from,
        to,
        order,
        queue,
    );
    reader.expect(answer.refusal)?;
    reader.expect(answer.steps)?;
    reader.expect(answer.entries_read)?;
    reader.expect(answer.index as u64)?;
    let is_kept = all_are(order, U32_BEFORE) && all_are(queue, U32_BEFORE);
    if answer.refusal != 0 && answer.refusal != NO_PATH && !is_kept {
        return Err(Fault::Different);
    }
    Ok(())
}

// The vertex, the number of steps, which may be any, and the lengths of order and list; the refusal, the count of vertices, the index, and the list
// after the call. After a refusal the scratch, order, is as it was.
fn within(reader: &mut Reader, mesh: &MeshSlices) -> Result<(), Fault> {
    let mut order = [U32_BEFORE; 1024];
    let mut list = [U32_BEFORE; 1024];
    let vertex = reader.take()?;
    let steps = reader.take_length(usize::MAX)?;
    let order = cut(reader, &mut order)?;
    let list = cut(reader, &mut list)?;
    let answer = c_api::meshes::koshirga_vertices_within(
        mesh.positions,
        mesh.starts,
        mesh.entries,
        vertex,
        steps,
        order,
        list,
    );
    reader.expect(answer.refusal)?;
    reader.expect(answer.vertices)?;
    reader.expect(answer.index as u64)?;
    if answer.refusal != 0 && !all_are(order, U32_BEFORE) {
        return Err(Fault::Different);
    }
    reader.expect_list(list)
}

// The lengths of order, queue and the islands' starts; the refusal, how many islands there are, the entries read, the index, and the three slices after
// the call.
fn islands(reader: &mut Reader, mesh: &MeshSlices) -> Result<(), Fault> {
    let mut order = [U32_BEFORE; 64];
    let mut queue = [U32_BEFORE; 64];
    let mut island_starts = [U32_BEFORE; 64];
    let order = cut(reader, &mut order)?;
    let queue = cut(reader, &mut queue)?;
    let island_starts = cut(reader, &mut island_starts)?;
    let answer = c_api::meshes::koshirga_walk_islands(
        mesh.positions,
        mesh.starts,
        mesh.entries,
        order,
        queue,
        island_starts,
    );
    reader.expect(answer.refusal)?;
    reader.expect(answer.islands)?;
    reader.expect(answer.entries_read)?;
    reader.expect(answer.index as u64)?;
    reader.expect_list(order)?;
    reader.expect_list(queue)?;
    reader.expect_list(island_starts)
}

// The lengths of a mesh's three slices, the slices, and how many calls there are; then each.
fn with_mesh<F: FnMut(&mut Reader, &MeshSlices) -> Result<(), Fault>>(
    reader: &mut Reader,
    mut call: F,
) -> Result<(), Fault>
    requires { F.IsAlwaysCallable call }
{
    let mut positions = [F64_BEFORE; 128];
    let mut starts = [U32_BEFORE; 64];
    let mut entries = [U16_BEFORE; 1024];
    let mut mesh = MeshSlices::cut(reader, &mut positions, &mut starts, &mut entries)?;
    mesh.take(reader)?;
    let count: u32 = reader.take()?;
    for _ in 0..count {
        call(reader, &mesh)?;
    }
    Ok(())
}

pub fn steps_between(reader: &mut Reader) -> Result<(), Fault> {
    with_mesh(reader, |reader, mesh| search(reader, mesh))
}

pub fn vertices_within(reader: &mut Reader) -> Result<(), Fault> {
    with_mesh(reader, |reader, mesh| within(reader, mesh))
}

pub fn walk_islands(reader: &mut Reader) -> Result<(), Fault> {
    with_mesh(reader, |reader, mesh| islands(reader, mesh))
}
