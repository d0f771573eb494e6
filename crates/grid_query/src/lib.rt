// Queries of a cube grid: the nearest vertex of a direction, and the triangle around it.
#![tactic(auto)]

ghost use Rattle.std.specs.Prelude.{◌≡◌, ℕ, ◌+◌, ◌-◌, ◌*◌, ◌^◌, ◌<◌, ◌≤◌, true, List, length, if◌then◌else◌, Option, Some, None, Ok, Err, IfOk, IfErr};
ghost use Rattle.std.specs.Float.Ieee.{lt};
ghost use Rattle.sequences.specs.Starts.{block_part};
ghost use Rattle.refusal.specs.declared.Refusal.TheVariants.{Id};
ghost use Rattle.barycentric.specs.LeastWeight.{least_weight};
ghost use Rattle.barycentric.specs.Ericson.{projected_barycentric};
ghost use Rattle.mesh.specs.Mesh.{vertex_count, position_of};
ghost use Rattle.mesh.specs.Rows.{ids_below};
ghost use Rattle.grid.specs.Stored.{lent_grid};
ghost use Rattle.grid_query.specs.Cell.{clamped_cell, cell_of, in_triples, part_rows, grid_rows};
ghost use Rattle.grid_query.specs.Nearest.{squared_distance, nearest_in, nearest_of_cell, grid_nearest};
ghost use Rattle.grid_query.specs.Locate.{located, least_kept, kept_of, located_at, grid_locate};

pub mod laws;

use barycentric::{least_weight, projected_barycentric};
use binary64::{NO_FRACTION, rank, whole_digits};
use grid::cube_face::{cube_face_project, dominant_face};
use grid::extent::Extent;
use grid::settings::Settings;
use grid::stored_grid::StoredGrid;
use mesh::{ids_below, position, vertex_count};
use refusal::Refusal;
use vector::{Direction, Triple, Vector3, Weights};

// The nearest vertex, its squared distance and how many candidates were compared.
#[derive(Clone, Copy, Debug)]
pub struct Nearest {
    pub id: u16,
    pub distance: f64,
    pub candidates: u32,
}

// A triangle with the weights of its corners and the least of them.
#[derive(Clone, Copy, Debug)]
pub struct LocatedTriangle {
    pub triple: Triple,
    pub weights: Weights,
    pub least: f64,
}

// The cell of a coordinate across a face, counted in cells: clamped to 0..side − 1, then converted. A NaN gives 0. From 2^53 on a number lies beyond the last cell.
// A number that is converted first and then cut gives the same cell, sooner than by a clamp of doubles.
fn clamped_cell(extent: Extent, x: f64) -> usize
    ensures { result ≡ clamped_cell extent.side x }
{
    let last = extent.side - 1;
    if x > 0.0 {
        if x < NO_FRACTION as f64 {
            (whole_digits(x) as usize).min(last)
        } else {
            last
        }
    } else {
        0
    }
}

// The cell of a direction that is normalised already. In place, so that the direction does not go through memory.
#[inline(always)]
fn cell_index(extent: Extent, direction: Vector3) -> usize
    ensures { result ≡ cell_of extent.side direction }
{
    let face = dominant_face(direction);
    let shown = cube_face_project(face, direction);
    let ci = clamped_cell(extent, extent.across_cells(shown.u, shown.d));
    let cj = clamped_cell(extent, extent.across_cells(shown.w, shown.d));
    extent.cell_number(face, ci, cj)
}

// The same grid. Handed to the rows in place of the query's own, it leaves that one in registers. Field by field: a type with a `Model` that has no inverse can't be `Copy`, and `clone` may fail.
#[inline(always)]
fn lent_again<'a>(grid: &StoredGrid<'a>) -> StoredGrid<'a>
    ensures { result ≡ grid.now }
{
    StoredGrid {
        settings: grid.settings,
        side: grid.side,
        cell_starts: grid.cell_starts,
        cell_ids: grid.cell_ids,
        triangle_starts: grid.triangle_starts,
        triples: grid.triples,
    }
}

// The part i of a list of blocks, WIDTH values each, that starts cut: behind rows 18 and 3 there. Cells hold ids one by one, and vertices triples.
#[inline(always)]
fn part<'a, const WIDTH: usize>(
    starts: &[u32],
    values: &'a [u16],
    i: usize,
) -> Result<&'a [u16], Refusal>
    requires both_starts { i + 1 < length starts.now }
    requires narrow { WIDTH ≤ 2 ^ 16 }
    ensures read { IfOk result (λ part. part.now ≡ block_part WIDTH starts.now values.now i) }
    ensures passed { IfOk result (λ part. part_rows WIDTH starts.now (length values.now) i (Ok tt) ≡ Ok tt) }
    ensures short { IfOk result (λ part. length part.now ≤ (2 ^ 32 - 1) * WIDTH) }
    ensures refused { IfErr result (λ reason. part_rows WIDTH starts.now (length values.now) i (Ok tt) ≡ Err reason) }
{
    let next = i + 1;
    let start = starts[i] as usize;
    let end = starts[next] as usize;
    if end < start {
        return Err(Refusal::StartsFall { index: next });
    }
    if end * WIDTH > values.len() {
        return Err(Refusal::Starts);
    }
    Ok(&values[start * WIDTH..end * WIDTH])
}

// The least that a triangle has to exceed.
fn least_kept(kept: Option<LocatedTriangle>) -> f64
    ensures { result ≡ least_kept kept }
{
    match kept {
        Some(triangle) => triangle.least,
        None => f64::NEG_INFINITY,
    }
}

// The triangle kept of one more: the first of equal leasts stays. Most triangles have a weight that is too low, and no minimum is taken of theirs.
fn keep(kept: Option<LocatedTriangle>, triple: Triple, weights: Weights) -> Option<LocatedTriangle>
    ensures { result ≡ (if lt (least_kept kept) (least_weight weights) then Some (located triple weights) else kept) }
{
    let bound = least_kept(kept);
    if (weights.u <= bound) | (weights.v <= bound) | (weights.w <= bound) {
        return kept;
    }
    let least = least_weight(weights);
    if least > bound {
        Some(LocatedTriangle {
            triple,
            weights,
            least,
        })
    } else {
        kept
    }
}

// A direction that the vertices of a mesh are compared with, by their positions.
#[derive(Clone, Copy)]
struct Query<'p> {
    positions: &'p [f64],
    direction: Vector3,
}

impl Query<'_> {
    // Rows 2, 19, 20, 2, 3 and 9, which come before the cell is read: a usual query passes by one test of all.
    // The rows are tried one by one only where it fails, in a function apart, which keeps them out of the query's code.
    #[inline(always)]
    fn check(&self, grid: &StoredGrid) -> Result<(), Refusal>
        ensures { result ≡ grid_rows grid.now self.now.positions.now self.now.direction (Ok tt) }
    {
        if grid.usual_passes(self.positions) & self.direction.is_admissible() {
            Ok(())
        } else {
            // The call is lent a copy, so that the query's own stays in registers, here and below.
            let again = *self;
            again.check_rows(&lent_again(grid))
        }
    }

    fn check_rows(&self, grid: &StoredGrid) -> Result<(), Refusal>
        ensures { result ≡ grid_rows grid.now self.now.positions.now self.now.direction (Ok tt) }
    {
        grid.check(self.positions)?;
        Direction::new(self.direction)?;
        Ok(())
    }

    // The squared distance of a vertex from the direction.
    fn squared_distance(&self, vertex: usize) -> f64
        requires { vertex < vertex_count self.now.positions.now }
        ensures { result ≡ squared_distance self.now.positions.now self.now.direction vertex }
    {
        (self.direction - position(self.positions, vertex)).norm_squared()
    }

    // The first candidate with the least squared distance in total order, or row 4: an id is tested as it is read. By hand: `min_by_key` gives the id alone, so that its distance would travel in a pair with it, and an empty list, row 11, would be told behind row 4.
    // A squared distance that is no NaN has the sign +, so that the lesser bits have the lesser rank. Bits are compared sooner than doubles, and without a jump. Inlined, so that the answer does not go through memory.
    #[inline(always)]
    fn nearest_in_cell(&self, candidates: &[u16]) -> Result<Nearest, Refusal>
        requires some { 0 < length candidates.now }
        requires counted { length candidates.now < 2 ^ 32 }
        ensures { result ≡ (if ids_below (vertex_count self.now.positions.now) candidates.now then Ok (nearest_in self.now.positions.now self.now.direction candidates.now) else Err Id) }
    {
        let count = vertex_count(self.positions);
        let mut id = candidates[0];
        if id as usize >= count {
            return Err(Refusal::Id);
        }
        let distance = self.squared_distance(id as usize);
        if distance.is_nan() {
            let again = *self;
            return again.nearest_by_rank(candidates);
        }
        let mut least = distance.to_bits();
        for &next in &candidates[1..] {
            if next as usize >= count {
                return Err(Refusal::Id);
            }
            let next_distance = self.squared_distance(next as usize);
            if next_distance.is_nan() {
                let again = *self;
                return again.nearest_by_rank(candidates);
            }
            let next_bits = next_distance.to_bits();
            if next_bits < least {
                id = next;
                least = next_bits;
            }
        }
        Ok(Nearest {
            id,
            distance: f64::from_bits(least),
            candidates: candidates.len() as u32,
        })
    }

    // The same by ranks, for any distances: a NaN stands above every number, and a later one doesn't replace an earlier one. Apart, which keeps it out of the query's code.
    #[inline(never)]
    fn nearest_by_rank(&self, ids: &[u16]) -> Result<Nearest, Refusal>
        requires some { 0 < length ids.now }
        requires counted { length ids.now < 2 ^ 32 }
        ensures { result ≡ (if ids_below (vertex_count self.now.positions.now) ids.now then Ok (nearest_in self.now.positions.now self.now.direction ids.now) else Err Id) }
    {
        if !ids_below(vertex_count(self.positions), ids) {
            return Err(Refusal::Id);
        }
        let mut id = ids[0];
        let mut distance = self.squared_distance(id as usize);
        let mut least = rank(distance);
        for &next in &ids[1..] {
            let next_distance = self.squared_distance(next as usize);
            let next_rank = rank(next_distance);
            if next_rank < least {
                id = next;
                distance = next_distance;
                least = next_rank;
            }
        }
        Ok(Nearest {
            id,
            distance,
            candidates: ids.len() as u32,
        })
    }

    // The nearest candidate of a cell, behind rows 18, 3, 11 and 4.
    #[inline(always)]
    fn nearest_of_cell(&self, grid: &StoredGrid, cell: usize) -> Result<Nearest, Refusal>
        requires { cell + 1 < length grid.now.cell_starts }
        ensures { result ≡ nearest_of_cell grid.now self.now.positions.now self.now.direction cell }
    {
        let candidates = part::<1>(grid.cell_starts, grid.cell_ids, cell)?;
        if candidates.is_empty() {
            return Err(Refusal::EmptyCell);
        }
        self.nearest_in_cell(candidates)
    }

    // The weights of a triangle's corners, its positions read by its ids.
    fn triangle_weights(&self, triple: Triple) -> Weights
        requires first { triple.first < vertex_count self.now.positions.now }
        requires second { triple.second < vertex_count self.now.positions.now }
        requires third { triple.third < vertex_count self.now.positions.now }
        ensures { result ≡ projected_barycentric self.now.direction (position_of self.now.positions.now triple.first) (position_of self.now.positions.now triple.second) (position_of self.now.positions.now triple.third) }
    {
        projected_barycentric(
            self.direction,
            position(self.positions, triple.first as usize),
            position(self.positions, triple.second as usize),
            position(self.positions, triple.third as usize),
        )
    }

    // The triangle kept of those listed.
    fn kept_triangle(&self, triples: &[u16]) -> Option<LocatedTriangle>
        requires { ids_below (vertex_count self.now.positions.now) triples.now ≡ true }
        ensures { result ≡ kept_of self.now.positions.now self.now.direction None (in_triples triples.now) }
    {
        let mut kept = None;
        for &[first, second, third] in triples.as_chunks::<3>().0 {
            let triple = Triple {
                first,
                second,
                third,
            };
            let weights = self.triangle_weights(triple);
            kept = keep(kept, triple, weights);
        }
        kept
    }

    // The triangle kept at a vertex, behind rows 18, 3 and 4 there, or row 12.
    #[inline(always)]
    fn locate_at(&self, grid: &StoredGrid, vertex: usize) -> Result<LocatedTriangle, Refusal>
        requires { vertex + 1 < length grid.now.triangle_starts }
        ensures { result ≡ located_at grid.now self.now.positions.now self.now.direction vertex }
    {
        let triples = part::<3>(grid.triangle_starts, grid.triples, vertex)?;
        if !ids_below(vertex_count(self.positions), triples) {
            return Err(Refusal::Id);
        }
        self.kept_triangle(triples).ok_or(Refusal::NoTriangle)
    }
}

// The nearest vertex of a direction, among the candidates of its cell. `locate` begins with the same lines: one function for both would answer a pair, the unit vector's query and the nearest, and its contract would have to say what each is. The grid's triples are not lent, and the answer holds whatever they are.
pub fn find_nearest_vertex(
    positions: &[f64],
    settings: Settings,
    side: u32,
    cell_starts: &[u32],
    cell_ids: &[u16],
    triangle_starts: &[u32],
    direction: Vector3,
) -> Result<Nearest, Refusal>
    ensures { (triples : List ℕ) → result ≡ grid_nearest (lent_grid settings side cell_starts.now cell_ids.now triangle_starts.now triples) positions.now direction }
{
    let grid = StoredGrid {
        settings,
        side: side as usize,
        cell_starts,
        cell_ids,
        triangle_starts,
        triples: &[],
    };
    Query {
        positions,
        direction,
    }
    .check(&grid)?;
    let unit = direction.normalize();
    let query = Query {
        positions,
        direction: unit,
    };
    query.nearest_of_cell(&grid, cell_index(grid.extent(), unit))
}

// The triangle around a direction, among those of its nearest vertex.
pub fn locate(
    positions: &[f64],
    settings: Settings,
    side: u32,
    cell_starts: &[u32],
    cell_ids: &[u16],
    triangle_starts: &[u32],
    triples: &[u16],
    direction: Vector3,
) -> Result<LocatedTriangle, Refusal>
    ensures { result ≡ grid_locate (lent_grid settings side cell_starts.now cell_ids.now triangle_starts.now triples.now) positions.now direction }
{
    let grid = StoredGrid {
        settings,
        side: side as usize,
        cell_starts,
        cell_ids,
        triangle_starts,
        triples,
    };
    Query {
        positions,
        direction,
    }
    .check(&grid)?;
    let unit = direction.normalize();
    let query = Query {
        positions,
        direction: unit,
    };
    let nearest = query.nearest_of_cell(&grid, cell_index(grid.extent(), unit))?;
    query.locate_at(&grid, nearest.id as usize)
}
