// The walk over a mesh in several islands: breadth first from the lowest id that has no number, again and again, until each id has one. The
// vertices that one walk numbers are an island: where neighbours are mutual, a connected component.
#![tactic(auto)]

pub mod laws;

ghost use Rattle.std.specs.Prelude.{◌^◌, ◌≤◌, ◌<◌, ◌≡◌, [], ◌∷◌, ◌++◌, length, take, slice_index};
ghost use Rattle.mesh.specs.Mesh.{neighbours};
ghost use Rattle.walk.specs.Walk.{unreached};
ghost use Rattle.walk.specs.Buffers.{Holding, Walkable, Continued};
ghost use Rattle.islands.specs.Islands.{Numbered};
ghost use Rattle.islands.specs.Outcomes.{islands_outcome, walk_islands};

use mesh::Mesh;
use refusal::Refusal;
use walk::{Reach, UNREACHED, continue_walk};

// How many islands there are, and how many entries were read.
#[derive(Clone, Copy, Debug, PartialEq, Eq)]
pub struct IslandCount {
    pub islands: u32,
    pub entries_read: u32,
}

// What a walk is lent to fill: the new id at each old one, the old id at each new one, and the first new id of each island. A function that is lent
// them to change says that they are still the same three: `same_order`, `same_queue`, `same_starts`.
#[derive(Drop)]
pub struct Numbering<'a> {
    pub order: &'a mut [u32],
    pub queue: &'a mut [u32],
    pub island_starts: &'a mut [u32],
}

// A root enters behind all that were reached, and its island is walked to its end.
fn walk_island(
    mesh: &Mesh,
    order: &mut [u32],
    queue: &mut [u32],
    reached: usize,
    root: usize,
) -> Reach
    requires walkable { Walkable mesh.now.starts mesh.now.entries order.old queue.old }
    requires held { Holding (length order.old) (take reached queue.old) queue.old reached order.old queue.old }
    requires there { root < length order.old }
    requires unnumbered { slice_index order.old root ≡ unreached }
    ensures { Continued (length order.old) (neighbours mesh.now) (take reached queue.old ++ (root ∷ [])) reached (length order.old) queue.old result order.new queue.new }
{
    order[root] = reached as u32;
    queue[reached] = root as u32;
    let count = order.len();
    continue_walk(
        mesh.starts(),
        mesh.entries(),
        order,
        queue,
        reached + 1,
        reached,
        count,
    )
}

// Each id without a number begins an island. The order has one place a vertex, and the others no fewer.
fn number_islands(
    mesh: &Mesh,
    order: &mut [u32],
    queue: &mut [u32],
    island_starts: &mut [u32],
) -> IslandCount
    requires walkable { Walkable mesh.now.starts mesh.now.entries order.old queue.old }
    requires few_entries { length mesh.now.entries < 2 ^ 32 }
    requires room { length order.old ≤ length island_starts.old }
    ensures { Numbered (length order.old) (neighbours mesh.now) queue.old island_starts.old result order.new queue.new island_starts.new }
{
    order.fill(UNREACHED);
    let mut reached = 0;
    let mut read = 0;
    let mut islands = 0;
    for root in 0..order.len() {
        if order[root] == UNREACHED {
            island_starts[islands] = reached as u32;
            islands += 1;
            let reach = walk_island(mesh, order, queue, reached, root);
            reached = reach.vertices;
            read += reach.entries;
        }
    }
    IslandCount {
        islands: islands as u32,
        entries_read: read as u32,
    }
}

// Numbers all vertices of a mesh, island by island, and tells how many islands there are. Refused is row 8, before the first write.
pub fn walk_islands(mesh: &Mesh, numbering: &mut Numbering) -> Result<IslandCount, Refusal>
    ensures outcome { islands_outcome result numbering.new.order.now numbering.new.queue.now numbering.new.island_starts.now ≡ walk_islands mesh.now numbering.old.order.now numbering.old.queue.now numbering.old.island_starts.now }
    ensures same_order { numbering.new.order.ghost_name ≡ numbering.old.order.ghost_name }
    ensures same_queue { numbering.new.queue.ghost_name ≡ numbering.old.queue.ghost_name }
    ensures same_starts { numbering.new.island_starts.ghost_name ≡ numbering.old.island_starts.ghost_name }
{
    let count = mesh.count();
    if numbering.order.len() < count
        || numbering.queue.len() < count
        || numbering.island_starts.len() < count
    {
        return Err(Refusal::Room);
    }
    Ok(number_islands(
        mesh,
        &mut numbering.order[..count],
        numbering.queue,
        numbering.island_starts,
    ))
}
