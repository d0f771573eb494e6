// Breadth-first walks over neighbour lists, and the order of a mesh's vertices by the walk from vertex 0.
#![tactic(auto)]

pub mod laws;

ghost use Rattle.std.specs.Prelude.{ℕ, ◌-◌, ◌≤◌, ◌<◌, ◌≡◌, [], ◌∷◌, length, take};
ghost use mathlib.Core.List.{Memᴰ};
ghost use Rattle.sequences.specs.Starts.{part};
ghost use Rattle.mesh.specs.Mesh.{mesh_of};
ghost use Rattle.walk.specs.Walk.{entered, unreached, walk_outcome, bfs_vertex_permutation};
ghost use Rattle.walk.specs.Buffers.{Holding, Walkable, Continued, Traversed};

use mesh::{Mesh, list_of};
use refusal::Refusal;

// How many vertices entered the queue, and how many entries were read.
#[derive(Clone, Copy)]
pub struct Reach {
    pub vertices: usize,
    pub entries: usize,
}

// What the order holds for an id that has not entered the queue: 4,294,967,295. A number of its own, since callers read it and the order is
// lent as plain words.
pub const UNREACHED: u32 = u32::MAX;

// The ids of a list that have not entered yet enter behind the first `reached` places of the queue, and are numbered as they enter.
// Order and queue stand apart, as C lends them, and the queue is whole: how far it is filled stands beside it.
pub fn enter_list(list: &[u16], order: &mut [u32], queue: &mut [u32], reached: usize) -> usize
    requires room { length order.old ≤ length queue.old }
    requires few { length order.old ≤ unreached }
    requires held { Holding (length order.old) (take reached queue.old) queue.old reached order.old queue.old }
    requires ids { ((v : ℕ) → Memᴰ v list.now → v < length order.old) }
    ensures { Holding (length order.old) (entered (take reached queue.old) list.now) queue.old result order.new queue.new }
{
    let mut count = reached;
    for &id in list {
        let v = id as usize;
        if order[v] == UNREACHED {
            order[v] = count as u32;
            queue[count] = u32::from(id);
            count += 1;
        }
    }
    count
}

// A vertex begins a walk: it alone has entered.
pub fn begin_walk(vertex: usize, order: &mut [u32], queue: &mut [u32])
    requires there { vertex < length order.old }
    requires few { length order.old ≤ unreached }
    requires room { length order.old ≤ length queue.old }
    ensures { Holding (length order.old) (vertex ∷ []) queue.old 1 order.new queue.new }
{
    order.fill(UNREACHED);
    order[vertex] = 0;
    queue[0] = vertex as u32;
}

// A walk goes on: `reached` ids have entered, and the places of the queue from `from` up to `limit` are left one after another, as far as
// ids stand there. The list of each is read. No `Mesh`: a walk reads no positions.
pub fn continue_walk(
    starts: &[u32],
    entries: &[u16],
    order: &mut [u32],
    queue: &mut [u32],
    reached: usize,
    from: usize,
    limit: usize,
) -> Reach
    requires walkable { Walkable starts.now entries.now order.old queue.old }
    requires held { Holding (length order.old) (take reached queue.old) queue.old reached order.old queue.old }
    requires from_reached { from ≤ reached }
    requires from_limit { from ≤ limit }
    ensures { Continued (length order.old) (part starts.now entries.now) (take reached queue.old) from (limit - from) queue.old result order.new queue.new }
{
    let mut count = reached;
    let mut head = from;
    let mut read = 0;
    // The queue grows while it is read, so that no range or slice of it has its places beforehand.
    while (head < count) & (head < limit) {
        let list = list_of(starts, entries, queue[head] as usize);
        count = enter_list(list, order, queue, count);
        read += list.len();
        head += 1;
    }
    Reach {
        vertices: count,
        entries: read,
    }
}

// The walk over compressed rows from vertex 0: the list of each vertex is read in the order in which the vertices entered. The order has one
// place a vertex, and the queue no fewer.
pub fn breadth_first(starts: &[u32], entries: &[u16], order: &mut [u32], queue: &mut [u32]) -> Reach
    requires { Walkable starts.now entries.now order.old queue.old }
    ensures { Traversed (length order.old) (part starts.now entries.now) queue.old result order.new queue.new }
{
    begin_walk(0, order, queue);
    let count = order.len();
    continue_walk(starts, entries, order, queue, 1, 0, count)
}

// The breadth-first order of a mesh's vertices: the new id at each old one, and in the queue the old id at each new one. Answers the count of
// entries read. The mesh rows 2 to 4 and row 8 change nothing; row 13 leaves what was reached. The slices stand apart, as C lends them.
pub fn bfs_vertex_permutation(
    positions: &[f64],
    starts: &[u32],
    entries: &[u16],
    order: &mut [u32],
    queue: &mut [u32],
) -> Result<u32, Refusal>
    ensures { walk_outcome result order.new queue.new ≡ bfs_vertex_permutation (mesh_of positions.now starts.now entries.now) order.old queue.old }
{
    let count = Mesh::new(positions, starts, entries)?.count();
    if order.len() < count || queue.len() < count {
        return Err(Refusal::Room);
    }
    let reach = breadth_first(starts, entries, &mut order[..count], queue);
    if reach.vertices == count {
        Ok(reach.entries as u32)
    } else {
        Err(Refusal::Unreached)
    }
}
