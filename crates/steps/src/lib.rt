// Steps between two vertices of a mesh, and the vertices within so many steps of one.
#![tactic(auto)]

pub mod laws;

ghost use Rattle.std.specs.Prelude.{◌^◌, ◌<◌, ◌≡◌, ◌≢◌, length, position};
ghost use Rattle.mesh.specs.Mesh.{count, neighbours};
ghost use Rattle.walk.specs.Buffers.{Holding, Walkable};
ghost use Rattle.steps.specs.Steps.{within_steps, is_target, search_from};
ghost use Rattle.steps.specs.Outcomes.{longest_taken, steps_between, KeptButNoPath, within_outcome, vertices_within, ScratchKept};

use mesh::Mesh;
use refusal::Refusal;
use std::cmp::max;
use walk::{begin_walk, continue_walk, enter_list};

// How many steps away a vertex is, and how many entries a walk has read when it meets it.
#[derive(Clone, Copy, Debug, PartialEq, Eq)]
pub struct Steps {
    pub steps: u32,
    pub entries_read: u32,
}

// What a search is lent to work in: the order that a walk numbers, and its queue. A function that is lent them to change says that they are still the same
// two: `same_order`, `same_queue`.
#[derive(Drop)]
pub struct SearchScratch<'a> {
    pub order: &'a mut [u32],
    pub queue: &'a mut [u32],
}

// The vertices within so many steps of one enter a list, level by level. A level that is empty ends it, so that a great number of steps costs
// no more than the walk. The order has one place a vertex, and the list no fewer.
fn enter_levels(
    mesh: &Mesh,
    order: &mut [u32],
    list: &mut [u32],
    vertex: usize,
    steps: usize,
) -> usize
    requires walkable { Walkable mesh.now.starts mesh.now.entries order.old list.old }
    requires there { vertex < length order.old }
    ensures { Holding (length order.old) (within_steps (neighbours mesh.now) vertex steps) list.old result order.new list.new }
{
    begin_walk(vertex, order, list);
    let mut reached = 1;
    let mut begin = 0;
    let mut level = 0;
    while (level < steps) & (begin < reached) {
        let end = reached;
        reached = continue_walk(
            mesh.starts(),
            mesh.entries(),
            order,
            list,
            reached,
            begin,
            end,
        )
        .vertices;
        begin = end;
        level += 1;
    }
    reached
}

// The walk from one vertex until another is met: None where it ends before.
fn search(
    mesh: &Mesh,
    order: &mut [u32],
    queue: &mut [u32],
    from: usize,
    target: usize,
) -> Option<Steps>
    requires walkable { Walkable mesh.now.starts mesh.now.entries order.old queue.old }
    requires places { length order.old ≡ count mesh.now }
    requires few_entries { length mesh.now.entries < 2 ^ 32 }
    requires there { from < length order.old }
    requires other { target ≢ from }
    ensures { result ≡ search_from (length order.old) (neighbours mesh.now) from target }
{
    begin_walk(from, order, queue);
    let mut reached = 1;
    let mut head = 0;
    let mut read = 0;
    // The vertices that are `level` steps away stand before `level_end`, and head is at one of them.
    let mut level: usize = 0;
    let mut level_end = 1;
    while head < reached {
        let list = mesh.neighbours(queue[head] as usize);
        if let Some(place) = place_in(list, target) {
            return Some(Steps {
                steps: (level + 1) as u32,
                entries_read: (read + place + 1) as u32,
            });
        }
        reached = enter_list(list, order, queue, reached);
        read += list.len();
        head += 1;
        if head == level_end {
            level += 1;
            level_end = reached;
        }
    }
    None
}

// The first place of a list that holds an id.
fn place_in(list: &[u16], id: usize) -> Option<usize>
    ensures { result ≡ position (is_target id) list.now }
{
    list.iter().position(|&entry| entry as usize == id)
}

// The length of the longest slice of a mesh: so many places are asked of scratch.
#[tactic(auto, unfolding(crate::specs::Outcomes::longest_taken))]
fn longest(mesh: &Mesh) -> usize
    ensures { result ≡ longest_taken mesh.now }
{
    max(
        max(mesh.positions().len(), mesh.starts().len()),
        mesh.entries().len(),
    )
}

// The number of steps from one vertex to another, and how many entries are read until it is met. Refused are rows 14, 8 and 15. Scratch is free
// after an answer and after row 15.
pub fn steps_between(
    mesh: &Mesh,
    from: u32,
    to: u32,
    scratch: &mut SearchScratch,
) -> Result<Steps, Refusal>
    ensures answered { result ≡ steps_between mesh.now from to (length scratch.old.order.now) (length scratch.old.queue.now) }
    ensures order_kept { KeptButNoPath result scratch.old.order.now scratch.new.order.now }
    ensures queue_kept { KeptButNoPath result scratch.old.queue.now scratch.new.queue.now }
    ensures same_order { scratch.new.order.ghost_name ≡ scratch.old.order.ghost_name }
    ensures same_queue { scratch.new.queue.ghost_name ≡ scratch.old.queue.ghost_name }
{
    let count = mesh.count();
    if (from as usize) >= count || (to as usize) >= count {
        return Err(Refusal::Vertex);
    }
    let longest = longest(mesh);
    if scratch.order.len() < longest || scratch.queue.len() < longest {
        return Err(Refusal::Room);
    }
    if from == to {
        return Ok(Steps {
            steps: 0,
            entries_read: 0,
        });
    }
    search(
        mesh,
        &mut scratch.order[..count],
        scratch.queue,
        from as usize,
        to as usize,
    )
    .ok_or(Refusal::NoPath)
}

// The vertices within so many steps of one, in the order of a walk begun at it. Answers how many they are. Order is scratch. Refused are rows 14 and 8.
pub fn vertices_within(
    mesh: &Mesh,
    vertex: u32,
    steps: usize,
    order: &mut [u32],
    list: &mut [u32],
) -> Result<u32, Refusal>
    ensures answered { within_outcome result list.new ≡ vertices_within mesh.now vertex steps (length order.old) list.old }
    ensures order_kept { ScratchKept result order.old order.new }
{
    let count = mesh.count();
    if (vertex as usize) >= count {
        return Err(Refusal::Vertex);
    }
    if order.len() < longest(mesh) || list.len() < count {
        return Err(Refusal::Room);
    }
    let within = enter_levels(mesh, &mut order[..count], list, vertex as usize, steps);
    Ok(within as u32)
}
