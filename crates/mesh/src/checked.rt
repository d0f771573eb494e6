// A mesh that is checked once: who holds one need not check rows 2 to 4 again.
ghost use Rattle.std.specs.Prelude.{◌≡◌, ◌<◌, Ok};
ghost use Rattle.mesh.specs.Mesh.{count, position_of, neighbours};
ghost use Rattle.mesh.specs.Mesh as meshes;
ghost use Rattle.mesh.specs.Rows.{checked_mesh, adjacency_rows, mesh_rows};
ghost use Rattle.mesh.specs.Mark.{list_ascends, lists_ascend};

use refusal::Refusal;
use std::marker::Model;
use vector::Vector3;

#[derive(Drop)]
pub struct Mesh<'a> {
    positions: &'a [f64],
    starts: &'a [u32],
    entries: &'a [u16],
}

impl<'a> Model for Mesh<'a> {
    ghost use Rattle.std.specs.Prelude.{◌≡◌, Ok};
    ghost use Rattle.mesh.specs.Mesh.{Mesh, mesh_of};
    ghost use Rattle.mesh.specs.Rows.{adjacency_rows};

    ghost Value = { Mesh };

    ghost view = { λ m. mesh_of m.positions.now m.starts.now m.entries.now };

    ghost invariant = { λ m. adjacency_rows (mesh_of m.positions.now m.starts.now m.entries.now) ≡ Ok tt };
}

impl<'a> Mesh<'a> {
    // The mesh of three lent slices, where rows 2 to 4 let it pass.
    #[tactic(auto, unfolding(crate::specs::Rows::checked_mesh))]
    pub fn new(
        positions: &'a [f64],
        starts: &'a [u32],
        entries: &'a [u16],
    ) -> Result<Mesh<'a>, Refusal>
        ensures { result ≡ checked_mesh (meshes.mesh_of positions.now starts.now entries.now) }
    {
        crate::check_adjacency(positions, starts, entries)?;
        Ok(Mesh {
            positions,
            starts,
            entries,
        })
    }

    // How many vertices it has. `rows`, here and below, tells callers the invariant: a model shows them its value alone.
    pub fn count(&self) -> usize
        ensures counted { result ≡ count self.now }
        ensures rows { adjacency_rows self.now ≡ Ok tt }
    {
        crate::vertex_count(self.positions)
    }

    pub fn positions(&self) -> &'a [f64]
        ensures positions { result.now ≡ self.now.positions }
        ensures rows { adjacency_rows self.now ≡ Ok tt }
    {
        self.positions
    }

    // Where each neighbour list starts among the entries, and where the last one ends.
    pub fn starts(&self) -> &'a [u32]
        ensures { result.now ≡ self.now.starts }
    {
        self.starts
    }

    pub fn entries(&self) -> &'a [u16]
        ensures { result.now ≡ self.now.entries }
    {
        self.entries
    }

    // The position of a vertex.
    pub fn position(&self, vertex: usize) -> Vector3
        requires { vertex < count self.now }
        ensures { result ≡ position_of self.now.positions vertex }
    {
        crate::position(self.positions, vertex)
    }

    // The neighbour list of a vertex, in its stored order.
    pub fn neighbours(&self, vertex: usize) -> &'a [u16]
        requires { vertex < count self.now }
        ensures { result.now ≡ neighbours self.now vertex }
    {
        crate::list_of(self.starts, self.entries, vertex)
    }

    // Row 5 behind rows 2 to 4.
    pub fn check_positions(&self) -> Result<(), Refusal>
        ensures { result ≡ mesh_rows self.now }
    {
        if crate::positions_admissible(self.positions()) {
            Ok(())
        } else {
            Err(Refusal::Position)
        }
    }

    // Whether all neighbour lists ascend. By vertex: a list lies between two starts, so that no slice has one element a vertex.
    pub fn lists_ascend(&self) -> bool
        ensures { result ≡ lists_ascend self.now }
    {
        (0..self.count()).all(|vertex| list_ascends(self.neighbours(vertex)))
    }
}

// Whether a list ascends; repeats may stand side by side.
fn list_ascends(list: &[u16]) -> bool
    ensures { result ≡ list_ascends list.now }
{
    list.is_sorted()
}
