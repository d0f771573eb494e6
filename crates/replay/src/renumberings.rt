// Calls of the renumbering, also such as some row refuses.
use crate::places::{F64_BEFORE, U8_BEFORE, U16_BEFORE, U32_BEFORE};
use crate::slices::{MeshSlices, cut};
use records::{Fault, Reader, Words, all_are};

// The call's scratch.
#[derive(Drop)]
struct Scratch<'a> {
    sources: &'a mut [u32],
    old_starts: &'a mut [u32],
    old_entries: &'a mut [u16],
    done: &'a mut [u8],
    held: &'a mut [f64],
}

impl Scratch<'_> {
    // It is as it was before the call.
    fn is_kept(&self) -> bool {
        all_are(self.sources, U32_BEFORE)
            && all_are(self.old_starts, U32_BEFORE)
            && all_are(self.old_entries, U16_BEFORE)
            && all_are(self.done, U8_BEFORE)
            && all_are(self.held, F64_BEFORE)
    }
}

// The mark before the call; the refusal, the index and the mark after it. A refused call leaves the scratch as it was.
fn call(
    reader: &mut Reader,
    mesh: &mut MeshSlices,
    values: &mut [f64],
    permutation: &[u32],
    each: usize,
    scratch: &mut Scratch,
) -> Result<(), Fault> {
    let mut lists_ascend: bool = reader.take()?;
    let answer = c_api::meshes::koshirga_renumber(
        mesh.positions,
        mesh.starts,
        mesh.entries,
        &mut lists_ascend,
        values,
        permutation,
        each,
        scratch.sources,
        scratch.old_starts,
        scratch.old_entries,
        scratch.done,
        scratch.held,
    );
    reader.expect(answer.refusal)?;
    reader.expect(answer.index as u64)?;
    reader.expect(lists_ascend)?;
    if answer.refusal != 0 && !scratch.is_kept() {
        return Err(Fault::Different);
    }
    Ok(())
}

// The entries a vertex, and the lengths of the scratch slices; then the call.
pub fn with_scratch(
    reader: &mut Reader,
    mesh: &mut MeshSlices,
    values: &mut [f64],
    permutation: &[u32],
) -> Result<(), Fault> {
    let mut sources = [U32_BEFORE; 24000];
    let mut old_starts = [U32_BEFORE; 24000];
    let mut old_entries = [U16_BEFORE; 24000];
    let mut done = [U8_BEFORE; 24000];
    let mut held = [F64_BEFORE; 24000];
    let each = reader.take_length(0xffff_ffff)?;
    let sources = cut(reader, &mut sources)?;
    let old_starts = cut(reader, &mut old_starts)?;
    let old_entries = cut(reader, &mut old_entries)?;
    let done = cut(reader, &mut done)?;
    let held = cut(reader, &mut held)?;
    let mut scratch = Scratch {
        sources,
        old_starts,
        old_entries,
        done,
        held,
    };
    call(reader, mesh, values, permutation, each, &mut scratch)
}

// The lengths of positions, starts, entries, values and permutation, and these slices; then the call, and the slices after it.
pub fn renumbering(reader: &mut Reader) -> Result<(), Fault> {
    let mut positions = [F64_BEFORE; 128];
    let mut starts = [U32_BEFORE; 64];
    let mut entries = [U16_BEFORE; 1024];
    let mut values = [F64_BEFORE; 1024];
    let mut permutation = [U32_BEFORE; 64];
    let mut mesh = MeshSlices::cut(reader, &mut positions, &mut starts, &mut entries)?;
    let values = cut(reader, &mut values)?;
    let permutation = cut(reader, &mut permutation)?;
    mesh.take(reader)?;
    reader.take_list(values)?;
    reader.take_list(permutation)?;
    with_scratch(reader, &mut mesh, values, permutation)?;
    mesh.expect::<Words>(reader)?;
    reader.expect_list(values)
}
