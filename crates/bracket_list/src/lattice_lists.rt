// The neighbour lists of a lattice that can be listed.
ghost use Rattle.std.specs.Prelude.{◌≡◌, ◌<◌};
ghost use Rattle.mesh.specs.Mesh.{count, neighbours};
ghost use Rattle.lattice.specs.Lattice.{lattice_mesh};
ghost use Rattle.bracket_list.specs.Output.{LatticeRows};

use mesh::list_of;

// Of a frequency from 1 to 4, as starts and entries. No one type with renumber's `ListCopies`: these are the lists of their frequency's
// lattice, of which the clauses speak, and those are any that passed. Both read a list by `mesh::list_of`.
#[derive(Clone, Copy)]
pub struct LatticeLists<'a> {
    pub frequency: u32,
    pub starts: &'a [u32],
    pub entries: &'a [u16],
    pub ghost of_lattice: { LatticeRows frequency starts.now entries.now },
}

impl<'a> LatticeLists<'a> {
    // How many vertices the lattice has.
    pub fn count(&self) -> usize
        ensures { result ≡ count (lattice_mesh self.now.frequency) }
    {
        self.starts.len() - 1
    }

    // The neighbour list of a vertex.
    pub fn neighbours(&self, v: usize) -> &'a [u16]
        requires { v < count (lattice_mesh self.now.frequency) }
        ensures { result.now ≡ neighbours (lattice_mesh self.now.frequency) v }
    {
        list_of(self.starts, self.entries, v)
    }
}
