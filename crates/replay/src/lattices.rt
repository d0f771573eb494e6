// Lattices, with their walks or their grids.
use crate::meshes;
use crate::places::{F64_BEFORE, U16_BEFORE, U32_BEFORE};
use crate::slices::LatticeSlices;
use records::{Fault, Hashes, ListForm, Reader};

// n up to 80, the lengths of the four slices that are lent, and the mark before the call; the refusal, the mark and the slices after it. Then the
// walk of what stands in them.
// Not inlined, nor is the next, so that the arrays of one kind of record take no stack beside those of another.
#[inline(never)]
pub fn lattice<F: ListForm>(reader: &mut Reader) -> Result<(), Fault> {
    let mut positions = [F64_BEFORE; 192006];
    let mut starts = [U32_BEFORE; 64003];
    let mut entries = [U16_BEFORE; 384000];
    let mut ids = [U16_BEFORE; 66420];
    let mut lattice = LatticeSlices::cut(
        reader,
        &mut positions,
        &mut starts,
        &mut entries,
        &mut ids,
    )?;
    let mut lists_ascend: bool = reader.take()?;
    let refusal = lattice.write(&mut lists_ascend);
    reader.expect(refusal)?;
    reader.expect(lists_ascend)?;
    lattice.expect::<F>(reader)?;
    meshes::walk::<F>(reader, &lattice.mesh)
}

// A lattice of a frequency up to 60, and its grid. The mark is lent, and not recorded.
#[inline(never)]
pub fn lattice_with_grid(reader: &mut Reader) -> Result<(), Fault> {
    let mut positions = [F64_BEFORE; 108006];
    let mut starts = [U32_BEFORE; 36003];
    let mut entries = [U16_BEFORE; 216000];
    let mut ids = [U16_BEFORE; 37820];
    let mut lattice = LatticeSlices::cut(
        reader,
        &mut positions,
        &mut starts,
        &mut entries,
        &mut ids,
    )?;
    let mut lists_ascend = false;
    let refusal = lattice.write(&mut lists_ascend);
    reader.expect(refusal)?;
    lattice.expect::<Hashes>(reader)?;
    meshes::grid::<Hashes>(reader, &lattice.mesh)
}
