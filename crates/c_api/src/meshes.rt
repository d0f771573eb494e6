// Meshes: the walk, the walk over all islands, steps between vertices, the mark of ascending lists, and the renumbering.
ghost use Rattle.std.specs.Prelude.{◌<◌, ◌≡◌, ◌≢◌, [], ◌∷◌, length};
ghost use Rattle.mesh.specs.Mesh.{mesh_of};
ghost use Rattle.mesh.specs.Mark.{mark_ascending};
ghost use Rattle.walk.specs.Walk.{bfs_vertex_permutation};
ghost use Rattle.islands.specs.Outcomes.{walk_islands};
ghost use Rattle.steps.specs.Outcomes.{steps_between, vertices_within};
ghost use Rattle.renumber.specs.Renumber.{call_of, scratch_of, apply_vertex_permutation};
ghost use Rattle.c_api.specs.Code.{steps_answer};
ghost use Rattle.c_api.specs.Lent.{walk_left, walk_left_of, islands_left, islands_left_of, within_left, within_left_of, mark_left, mark_left_of, renumber_left, renumber_left_of};

use crate::{IslandsAnswer, StepsAnswer, VerdictAnswer, WalkAnswer, WithinAnswer};
use islands::Numbering;
use mesh::Mesh;
use steps::SearchScratch;

pub fn koshirga_walk(
    positions: &[f64],
    starts: &[u32],
    entries: &[u16],
    order: &mut [u32],
    queue: &mut [u32],
) -> WalkAnswer
    ensures { walk_left result order.new queue.new ≡ walk_left_of (bfs_vertex_permutation (mesh_of positions.now starts.now entries.now) order.old queue.old) }
{
    walk::bfs_vertex_permutation(positions, starts, entries, order, queue).into()
}

// All vertices are numbered, and places of the islands' starts behind the islands stay as they were. After a refusal all slices are as they were.
pub fn koshirga_walk_islands(
    positions: &[f64],
    starts: &[u32],
    entries: &[u16],
    order: &mut [u32],
    queue: &mut [u32],
    island_starts: &mut [u32],
) -> IslandsAnswer
    ensures { islands_left result order.new queue.new island_starts.new ≡ islands_left_of (walk_islands (mesh_of positions.now starts.now entries.now) order.old queue.old island_starts.old) }
{
    match Mesh::new(positions, starts, entries) {
        Ok(mesh) => {
            let mut numbering = Numbering {
                order,
                queue,
                island_starts,
            };
            islands::walk_islands(&mesh, &mut numbering).into()
        }
        Err(reason) => IslandsAnswer::from(Err(reason)),
    }
}

// Order and queue are scratch. After a refusal they are as they were, but after that of row 15, which leaves them free.
pub fn koshirga_steps_between(
    positions: &[f64],
    starts: &[u32],
    entries: &[u16],
    from: u32,
    to: u32,
    order: &mut [u32],
    queue: &mut [u32],
) -> StepsAnswer
    ensures answered { result ≡ steps_answer (steps_between (mesh_of positions.now starts.now entries.now) from to (length order.old) (length queue.old)) }
    ensures order_kept { 0 < result.refusal → result.refusal ≢ 15 → order.new ≡ order.old }
    ensures queue_kept { 0 < result.refusal → result.refusal ≢ 15 → queue.new ≡ queue.old }
{
    match Mesh::new(positions, starts, entries) {
        Ok(mesh) => {
            let mut scratch = SearchScratch { order, queue };
            steps::steps_between(&mesh, from, to, &mut scratch).into()
        }
        Err(reason) => StepsAnswer::from(Err(reason)),
    }
}

// The vertices are written to the list, whose places behind them stay as they were; order is scratch. After a refusal both slices are as they were.
pub fn koshirga_vertices_within(
    positions: &[f64],
    starts: &[u32],
    entries: &[u16],
    vertex: u32,
    steps: usize,
    order: &mut [u32],
    list: &mut [u32],
) -> WithinAnswer
    ensures answered { within_left result list.new ≡ within_left_of (vertices_within (mesh_of positions.now starts.now entries.now) vertex steps (length order.old) list.old) }
    ensures order_kept { 0 < result.refusal → order.new ≡ order.old }
{
    match Mesh::new(positions, starts, entries) {
        Ok(mesh) => steps::vertices_within(&mesh, vertex, steps, order, list).into(),
        Err(reason) => WithinAnswer::from(Err(reason)),
    }
}

// After a refusal the mark is as it was.
pub fn koshirga_mark_ascending(
    positions: &[f64],
    starts: &[u32],
    entries: &[u16],
    lists_ascend: &mut bool,
) -> VerdictAnswer
    ensures { mark_left result lists_ascend.new ≡ mark_left_of (mark_ascending (mesh_of positions.now starts.now entries.now) lists_ascend.old) }
{
    mesh::mark_ascending(positions, starts, entries, lists_ascend).into()
}

// After a refusal all slices and the mark are as they were.
pub fn koshirga_renumber(
    positions: &mut [f64],
    starts: &mut [u32],
    entries: &mut [u16],
    lists_ascend: &mut bool,
    values: &mut [f64],
    permutation: &[u32],
    entries_per_vertex: usize,
    sources: &mut [u32],
    old_starts: &mut [u32],
    old_entries: &mut [u16],
    done: &mut [u8],
    held: &mut [f64],
) -> VerdictAnswer
    ensures values_after { renumber_left result (mesh_of positions.new starts.new entries.new) lists_ascend.new values.new ≡ renumber_left_of (apply_vertex_permutation (mesh_of positions.old starts.old entries.old) lists_ascend.old values.old (call_of permutation.now entries_per_vertex (length sources.old ∷ length old_starts.old ∷ length old_entries.old ∷ length done.old ∷ length held.old ∷ []))) }
    ensures held_unchanged { 0 < result.refusal → scratch_of sources.new old_starts.new old_entries.new done.new held.new ≡ scratch_of sources.old old_starts.old old_entries.old done.old held.old }
{
    renumber::apply_vertex_permutation(
        positions,
        starts,
        entries,
        lists_ascend,
        values,
        permutation,
        entries_per_vertex,
        sources,
        old_starts,
        old_entries,
        done,
        held,
    )
    .into()
}
