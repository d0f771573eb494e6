// Slices that are lent to calls: of the lengths that a record says, and with what it says of them.
use crate::places::{FACTOR, MARGIN};
use c_api::BuildAnswer;
use records::{Fault, ListForm, Reader};

// The next word is a length: a slice's first places, so many of them.
pub fn cut<'a, T>(reader: &mut Reader, slice: &'a mut [T]) -> Result<&'a mut [T], Fault> {
    let length = reader.take_length(slice.len())?;
    Ok(&mut slice[..length])
}

// Those of a mesh.
#[derive(Drop)]
pub struct MeshSlices<'a> {
    pub positions: &'a mut [f64],
    pub starts: &'a mut [u32],
    pub entries: &'a mut [u16],
}

impl<'a> MeshSlices<'a> {
    pub fn cut(
        reader: &mut Reader,
        positions: &'a mut [f64],
        starts: &'a mut [u32],
        entries: &'a mut [u16],
    ) -> Result<MeshSlices<'a>, Fault> {
        let positions = cut(reader, positions)?;
        let starts = cut(reader, starts)?;
        let entries = cut(reader, entries)?;
        Ok(MeshSlices {
            positions,
            starts,
            entries,
        })
    }

    // What stands in them before a call.
    pub fn take(&mut self, reader: &mut Reader) -> Result<(), Fault> {
        reader.take_list(self.positions)?;
        reader.take_list(self.starts)?;
        reader.take_list(self.entries)
    }

    // What stands in them after it.
    pub fn expect<F: ListForm>(&self, reader: &mut Reader) -> Result<(), Fault> {
        F::expect(reader, self.positions)?;
        F::expect(reader, self.starts)?;
        F::expect(reader, self.entries)
    }
}

// Those of a lattice, and its frequency.
#[derive(Drop)]
pub struct LatticeSlices<'a> {
    pub frequency: u32,
    pub mesh: MeshSlices<'a>,
    pub ids: &'a mut [u16],
}

impl<'a> LatticeSlices<'a> {
    pub fn cut(
        reader: &mut Reader,
        positions: &'a mut [f64],
        starts: &'a mut [u32],
        entries: &'a mut [u16],
        ids: &'a mut [u16],
    ) -> Result<LatticeSlices<'a>, Fault> {
        let frequency = reader.take()?;
        let mesh = MeshSlices::cut(reader, positions, starts, entries)?;
        let ids = cut(reader, ids)?;
        Ok(LatticeSlices {
            frequency,
            mesh,
            ids,
        })
    }

    // The call that writes the lattice: its refusal.
    pub fn write(&mut self, lists_ascend: &mut bool) -> u32 {
        let frequency = self.frequency;
        let mesh = &mut self.mesh;
        c_api::lattices::koshirga_lattice(
            frequency,
            mesh.positions,
            mesh.starts,
            mesh.entries,
            lists_ascend,
            self.ids,
        )
    }

    pub fn expect<F: ListForm>(&self, reader: &mut Reader) -> Result<(), Fault> {
        self.mesh.expect::<F>(reader)?;
        F::expect(reader, self.ids)
    }

    // The id table, as the queries are lent it.
    pub fn table(&self) -> Table<'_> {
        Table {
            frequency: self.frequency,
            ids: self.ids,
        }
    }
}

#[derive(Clone, Copy)]
pub struct Table<'a> {
    pub frequency: u32,
    pub ids: &'a [u16],
}

// Those of a grid.
#[derive(Drop)]
pub struct GridSlices<'a> {
    pub cell_starts: &'a mut [u32],
    pub cell_ids: &'a mut [u16],
    pub triangle_starts: &'a mut [u32],
    pub triples: &'a mut [u16],
}

impl<'a> GridSlices<'a> {
    pub fn cut(
        reader: &mut Reader,
        cell_starts: &'a mut [u32],
        cell_ids: &'a mut [u16],
        triangle_starts: &'a mut [u32],
        triples: &'a mut [u16],
    ) -> Result<GridSlices<'a>, Fault> {
        let cell_starts = cut(reader, cell_starts)?;
        let cell_ids = cut(reader, cell_ids)?;
        let triangle_starts = cut(reader, triangle_starts)?;
        let triples = cut(reader, triples)?;
        Ok(GridSlices {
            cell_starts,
            cell_ids,
            triangle_starts,
            triples,
        })
    }

    pub fn take(&mut self, reader: &mut Reader) -> Result<(), Fault> {
        reader.take_list(self.cell_starts)?;
        reader.take_list(self.cell_ids)?;
        reader.take_list(self.triangle_starts)?;
        reader.take_list(self.triples)
    }

    pub fn expect<F: ListForm>(&self, reader: &mut Reader) -> Result<(), Fault> {
        F::expect(reader, self.cell_starts)?;
        F::expect(reader, self.cell_ids)?;
        F::expect(reader, self.triangle_starts)?;
        F::expect(reader, self.triples)
    }

    // The call that builds the grid of a mesh.
    pub fn build(&mut self, mesh: &MeshSlices) -> BuildAnswer {
        c_api::grids::koshirga_build_grid(
            mesh.positions,
            mesh.starts,
            mesh.entries,
            self.cell_starts,
            self.cell_ids,
            self.triangle_starts,
            self.triples,
            FACTOR,
            MARGIN,
        )
    }

    // The grid of these positions, as the queries and the packing are lent it.
    pub fn grid<'b>(&'b self, positions: &'b [f64], side: u32) -> Grid<'b> {
        Grid {
            positions,
            side,
            cell_starts: self.cell_starts,
            cell_ids: self.cell_ids,
            triangle_starts: self.triangle_starts,
            triples: self.triples,
        }
    }
}

#[derive(Clone, Copy)]
pub struct Grid<'a> {
    pub positions: &'a [f64],
    pub side: u32,
    pub cell_starts: &'a [u32],
    pub cell_ids: &'a [u16],
    pub triangle_starts: &'a [u32],
    pub triples: &'a [u16],
}

// The refusal, the side, the index, the count of conversions held.
pub fn expect_built(reader: &mut Reader, answer: BuildAnswer) -> Result<(), Fault> {
    reader.expect(answer.refusal)?;
    reader.expect(answer.side)?;
    reader.expect(answer.index as u64)?;
    reader.expect(answer.held)
}
