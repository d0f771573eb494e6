// Rows 2 to 6, with 17 and 18: what an operation asks of the mesh that it is lent, and of a permutation of its ids. The call that reads
// whether the neighbour lists ascend. Positions, starts and entries stand apart, as C lends them: `Mesh` holds the three once they have
// passed.
#![tactic(auto)]

mod checked;
pub mod laws;

ghost use Rattle.std.specs.Prelude.{◌≡◌, true, suc, ◌*◌, ◌+◌, ◌-◌, ◌≤◌, ◌<◌, length, None};
ghost use Rattle.sequences.specs.Permutation.{is_permutation};
ghost use Rattle.sequences.specs.Starts.{part};
ghost use Rattle.mesh.specs.Mesh.{mesh_of, vertex_count, position_of, HasList};
ghost use Rattle.mesh.specs.Rows.{greatest_count, positions_fit, starts_counted, starts_span, falling_start, lists_limited, ids_below, positions_admissible, list_rows, adjacency_rows};
ghost use Rattle.mesh.specs.Mark.{mark_outcome, mark_ascending};

pub use checked::Mesh;
use refusal::Refusal;
use vector::Vector3;

const GREATEST_COUNT: usize = 65536;

const LONGEST_LIST: u32 = 32;

// How many vertices the positions are for.
pub fn vertex_count(positions: &[f64]) -> usize
    ensures { result ≡ vertex_count positions.now }
{
    positions.len() / 3
}

// The position of a vertex.
#[tactic(auto, unfolding(crate::specs::Mesh::position_of))]
pub fn position(positions: &[f64], vertex: usize) -> Vector3
    requires { vertex * 3 + 2 < length positions.now }
    ensures { result ≡ position_of positions.now vertex }
{
    Vector3::new(
        positions[vertex * 3],
        positions[vertex * 3 + 1],
        positions[vertex * 3 + 2],
    )
}

// The list of a vertex, from its start to the next one.
#[inline(always)]
#[tactic(auto, using(sequences::proofs::Tabulate::slice_as_take), unfolding(sequences::specs::Starts::part))]
pub fn list_of<'a>(starts: &[u32], entries: &'a [u16], vertex: usize) -> &'a [u16]
    requires { HasList starts.now entries.now vertex }
    ensures { result.now ≡ part starts.now entries.now vertex }
{
    let start = starts[vertex] as usize;
    let end = starts[vertex + 1] as usize;
    &entries[start..end]
}

// Row 2.
#[tactic(auto, unfolding(crate::specs::Rows::positions_fit))]
pub fn positions_fit(positions: &[f64]) -> bool
    ensures { result ≡ positions_fit positions.now }
{
    let count = vertex_count(positions);
    (positions.len() % 3 == 0) & ((1 <= count) & (count <= GREATEST_COUNT))
}

// Row 3: the starts have their length.
#[tactic(auto, unfolding(crate::specs::Rows::starts_counted))]
fn starts_counted(count: usize, starts: &[u32]) -> bool
    ensures { result ≡ starts_counted count starts.now }
{
    starts.len().checked_sub(1) == Some(count)
}

// Row 17: the starts begin at 0 and end at the entry count.
#[tactic(auto, unfolding(crate::specs::Rows::starts_span))]
pub fn starts_span(count: usize, starts: &[u32], entries: &[u16]) -> bool
    requires { length starts.now ≡ suc count }
    ensures { result ≡ starts_span count starts.now entries.now }
{
    (starts[0] == 0) & (starts[count] as usize == entries.len())
}

// Row 18: the index of the first start below the one before it.
pub fn falling_start(starts: &[u32]) -> Option<usize>
    ensures { result ≡ falling_start starts.now }
{
    starts
        .array_windows::<2>()
        .position(|[before, start]| start < before)
        .map(|place| place + 1)
}

// Row 3: no neighbour list is over 32.
fn lists_limited(starts: &[u32]) -> bool
    requires ascending { falling_start starts.now ≡ None }
    ensures { result ≡ lists_limited (length starts.now - 1) starts.now }
{
    starts
        .array_windows::<2>()
        .all(|[start, next]| next - start <= LONGEST_LIST)
}

// Row 4. The greatest id decides: a loop that is left nowhere but at its end takes several ids at a time.
pub fn ids_below(count: usize, ids: &[u16]) -> bool
    ensures { result ≡ ids_below count ids.now }
{
    ids.iter()
        .copied()
        .max()
        .is_none_or(|greatest| (greatest as usize) < count)
}

// Row 5. By vertex: a position is three numbers.
pub fn positions_admissible(positions: &[f64]) -> bool
    ensures { result ≡ positions_admissible positions.now }
{
    (0..vertex_count(positions)).all(|vertex| position(positions, vertex).is_admissible())
}

// Rows 3 and 4, 17 and 18 among them, of the neighbour lists of so many vertices.
#[tactic(auto, unfolding(crate::specs::Rows::list_rows, crate::specs::Rows::starts_counted))]
pub fn check_lists(count: usize, starts: &[u32], entries: &[u16]) -> Result<(), Refusal>
    ensures { result ≡ list_rows count starts.now entries.now }
{
    if !starts_counted(count, starts) {
        return Err(Refusal::Starts);
    }
    if !starts_span(count, starts, entries) {
        return Err(Refusal::StartsSpan);
    }
    if let Some(index) = falling_start(starts) {
        return Err(Refusal::StartsFall { index });
    }
    if !lists_limited(starts) {
        return Err(Refusal::Starts);
    }
    if !ids_below(count, entries) {
        return Err(Refusal::Id);
    }
    Ok(())
}

// Rows 2 to 4, which every operation on a mesh begins with.
#[tactic(auto, unfolding(crate::specs::Rows::adjacency_rows))]
pub fn check_adjacency(positions: &[f64], starts: &[u32], entries: &[u16]) -> Result<(), Refusal>
    ensures { result ≡ adjacency_rows (mesh_of positions.now starts.now entries.now) }
{
    if !positions_fit(positions) {
        return Err(Refusal::Count);
    }
    check_lists(vertex_count(positions), starts, entries)
}

// Reads the lists of a mesh: behind rows 2 to 4 the mark is set where all of them ascend, and else cleared. A refusal leaves it.
// The mark is the caller's, lent as C lends it.
#[tactic(auto, unfolding(crate::specs::Rows::checked_mesh, crate::specs::Mark::mark_ascending))]
pub fn mark_ascending(
    positions: &[f64],
    starts: &[u32],
    entries: &[u16],
    lists_ascend: &mut bool,
) -> Result<(), Refusal>
    ensures { mark_outcome result lists_ascend.new ≡ mark_ascending (mesh_of positions.now starts.now entries.now) lists_ascend.old }
{
    let mesh = Mesh::new(positions, starts, entries)?;
    *lists_ascend = mesh.lists_ascend();
    Ok(())
}

// Row 6: a permutation of the ids below the count. The marks stand in the call's own frame, since this row comes before row 8 and a
// refused call leaves lent scratch as it was.
pub fn is_permutation(permutation: &[u32], count: usize) -> bool
    requires { count ≤ greatest_count }
    ensures { result ≡ is_permutation count permutation.now }
{
    if permutation.len() != count {
        return false;
    }
    let mut marked = [false; GREATEST_COUNT];
    for &id in permutation {
        let id = id as usize;
        if id >= count || marked[id] {
            return false;
        }
        marked[id] = true;
    }
    true
}
