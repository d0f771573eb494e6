// Location in closed form on the lattice: the master face of a direction, and the sub-triangle of its lattice there.
#![tactic(auto)]

ghost use Rattle.std.specs.Prelude.{◌≡◌, ◌≤◌, cond};
ghost use Rattle.std.specs.Float.{binary64};
ghost use Rattle.std.specs.Float.Ieee.{add, sub, lt};
ghost use Rattle.binary64.specs.Constants.{one};
ghost use Rattle.analytic.specs.FaceChoice.{signs_of, flag_sum, mapped_face, face_index, choose_face, face_choice_of};
ghost use Rattle.analytic.specs.SubTriangle.{orientation_limit, clamped_floor, sub_triangle, sub_triangle_at, sub_triangle_on};
ghost use Rattle.analytic.specs.Location.{triple_below, analytic_locate, last_greatest, analytic_nearest};

pub mod laws;
mod slot_ids;

use icosahedron::{Face, Frequency, icosahedron_point};
use master_face::faces::master_face_of;
use master_face::{MasterFace, Three};
use refusal::Refusal;
use slot_ids::SlotIds;
use vector::{Direction, Triple, Vector3, Weights};

// On which side of each symmetry plane a point lies: whether on the negative one.
#[derive(Clone, Copy)]
pub struct Signs {
    pub i: bool,
    pub j: bool,
    pub k: bool,
}

// The lattice point with the weights a, b and n - a - b.
#[derive(Clone, Copy)]
pub struct LatticeCoordinates {
    pub a: usize,
    pub b: usize,
}

// Where a point lies on a lattice: the least coordinates of the rhombus of two sub-triangles there, and the point's fractions over them.
// The two have two corners in common, whose ids are read before the fractions tell which is meant.
#[derive(Clone, Copy)]
pub struct Rhombus {
    pub least: LatticeCoordinates,
    pub fractions: Weights,
    pub ghost in_range: { (least.a ≤ 80) × (least.b ≤ 80) },
}

// The triangle of a lattice that a direction meets: the ids of its corners, and their weights. The grid's `LocatedTriangle` stands
// apart: its answer has the least of the weights too.
#[derive(Clone, Copy, Debug)]
pub struct Located {
    pub triple: Triple,
    pub weights: Weights,
}

// `FACE_MAPPING` of the source, four faces for each of the eight arrangements of signs.
const FACE_MAPPING: [[u8; 4]; 8] = [
    [1, 0, 7, 2],
    [8, 7, 16, 9],
    [5, 6, 0, 14],
    [15, 16, 6, 19],
    [3, 2, 11, 4],
    [10, 9, 17, 11],
    [13, 14, 4, 12],
    [18, 19, 12, 17],
];

// The sum of the flags' weights 1, 2 and 3.
#[tactic(auto, unfolding(crate::specs::FaceChoice::flag_sum))]
fn flag_sum(outside: Three<bool>) -> usize
    ensures { result ≡ flag_sum outside }
{
    usize::from(outside.first) + 2 * usize::from(outside.second) + 3 * usize::from(outside.third)
}

// One of the four faces that the signs leave. The place is the flag sum, 0 where the point lies beyond no plane.
#[tactic(auto, using(crate::proofs::FaceMapping::table_mapped_face, crate::proofs::FaceMapping::mapped_face_below))]
fn mapped_face(signs: Signs, place: usize) -> Face
    requires { place ≤ 3 }
    ensures { result.index ≡ mapped_face signs place }
{
    let arrangement = 4 * usize::from(signs.i) + 2 * usize::from(signs.j) + usize::from(signs.k);
    Face {
        index: FACE_MAPPING[arrangement][place] as usize,
    }
}

// The greatest flag sum that picks a face.
const GREATEST_FLAG_SUM: usize = 3;

// The face that three symmetry signs and three outside flags choose, or refusal 10.
#[tactic(auto, unfolding(crate::specs::FaceChoice::choose_face))]
pub fn choose_face(signs: Signs, outside: Three<bool>) -> Result<Face, Refusal>
    ensures { face_index result ≡ choose_face signs outside }
{
    let sum = flag_sum(outside);
    if sum <= GREATEST_FLAG_SUM {
        Ok(mapped_face(signs, sum))
    } else {
        Err(Refusal::Flags)
    }
}

// On which side of the three symmetry planes the point lies.
#[tactic(auto, unfolding(crate::specs::FaceChoice::signs_of))]
fn signs_of(p: Vector3) -> Signs
    ensures { result ≡ signs_of p }
{
    let first = icosahedron_point(2) + icosahedron_point(7);
    let second = icosahedron_point(3) + icosahedron_point(4);
    let third = icosahedron_point(0) + icosahedron_point(1);
    Signs {
        i: p.dot(first) < 0.0,
        j: p.dot(second) < 0.0,
        k: p.dot(third) < 0.0,
    }
}

// The choice of a direction's master face.
// Inlined: as a call of its own it would load components in pairs that were not stored so, and wait for the stores.
#[inline(always)]
#[tactic(auto, unfolding(crate::specs::FaceChoice::face_choice_of, crate::specs::FaceChoice::outside_first))]
pub fn master_face(direction: Direction) -> Result<Face, Refusal>
    ensures { face_index result ≡ face_choice_of direction.vector }
{
    let p = direction.vector;
    let signs = signs_of(p);
    let first = master_face_of(mapped_face(signs, 0));
    choose_face(signs, first.outside(p))
}

// The floor of a coordinate, from 0 to n. A NaN gives 0.
fn clamped_floor(frequency: Frequency, u: f64) -> u32
    ensures { result ≡ clamped_floor frequency.n u }
{
    if u > 0.0 {
        if u < frequency.n as f64 {
            binary64::whole_digits(u) as u32
        } else {
            frequency.n as u32
        }
    } else {
        0
    }
}

impl Rhombus {
    // Whether the point lies in the sub-triangle that points up: there the fractions sum to about 1, and in the other to about 2.
    pub fn points_up(self) -> bool
        ensures { result ≡ lt (add binary64 (add binary64 self.fractions.u self.fractions.v) self.fractions.w) orientation_limit }
    {
        self.fractions.u + self.fractions.v + self.fractions.w < 1.5
    }

    // The point's weights at the corners of its sub-triangle.
    #[tactic(auto, unfolding(crate::specs::SubTriangle::sub_triangle))]
    fn weights(self) -> Weights
        ensures { result ≡ (sub_triangle self.least.a self.least.b self.fractions.u self.fractions.v self.fractions.w).weights }
    {
        let up = self.points_up();
        let Weights { u, v, w } = self.fractions;
        Weights::new(
            corner_weight(up, u),
            corner_weight(up, v),
            corner_weight(up, w),
        )
    }
}

// What a fraction is multiplied by, and what that is added to: -1 and 1 where the sub-triangle points down, 1 and -0 where it points up.
const FACTOR_AND_BASE: [(f64, f64); 2] = [(-1.0, 1.0), (1.0, -0.0)];

// The weight of a corner by the fraction at it: the fraction where the sub-triangle points up, and else what it leaves of 1.
// Up and down come in any order: a wrong guess of a branch would cost more than this product and sum, which make the same bits. As a function of
// its own LLVM makes a branch of the table, and then inlines that.
#[inline(always)]
fn corner_weight(up: bool, fraction: f64) -> f64
    ensures { result ≡ cond up fraction (sub binary64 one fraction) }
{
    let (factor, base) = FACTOR_AND_BASE[usize::from(up)];
    base + factor * fraction
}

// The rhombus at the lattice coordinates u, v and w.
#[tactic(auto, using(crate::proofs::ClampedFloor::clamped_floor_le), unfolding(crate::specs::SubTriangle::sub_triangle_at))]
fn rhombus_at(frequency: Frequency, u: f64, v: f64, w: f64) -> Rhombus
    ensures { sub_triangle result.least.a result.least.b result.fractions.u result.fractions.v result.fractions.w ≡ sub_triangle_at frequency.n u v w }
{
    let i = clamped_floor(frequency, u);
    let j = clamped_floor(frequency, v);
    let k = clamped_floor(frequency, w);
    Rhombus {
        least: LatticeCoordinates {
            a: i as usize,
            b: j as usize,
        },
        fractions: Weights::new(u - i as f64, v - j as f64, w - k as f64),
    }
}

// The rhombus that a direction meets on a master face.
// Called once a query: as a call of its own it costs some nanoseconds.
#[inline(always)]
#[tactic(auto, unfolding(crate::specs::SubTriangle::sub_triangle_on))]
fn rhombus_on(frequency: Frequency, face: MasterFace, direction: Direction) -> Rhombus
    ensures { sub_triangle result.least.a result.least.b result.fractions.u result.fractions.v result.fractions.w ≡ sub_triangle_on frequency.n face direction.vector }
{
    let nf = frequency.n as f64;
    let t = face.barycentric(face.projection(direction.vector));
    rhombus_at(frequency, t.u * nf, t.v * nf, t.w * nf)
}

#[tactic(auto, unfolding(crate::specs::Location::triple_below))]
fn triple_below(count: usize, t: Triple) -> bool
    ensures { result ≡ triple_below count t }
{
    ((t.first as usize) < count) & ((t.second as usize) < count) & ((t.third as usize) < count)
}

// The triangle of the lattice of a frequency that a direction meets, with its weights, behind rows 1, 8, 9, 10 and 4. The ids are tested before
// they are given out.
// Inlined into both queries, so that no weight waits between a store of this answer and a load that spans two of its stores.
#[inline(always)]
pub fn locate(frequency: u32, id_table: &[u16], direction: Vector3) -> Result<Located, Refusal>
    ensures { result ≡ analytic_locate frequency id_table.now direction }
{
    let lattice = Frequency::new(frequency as usize)?;
    let table = SlotIds::new(lattice, id_table)?;
    let admitted = Direction::new(direction)?;
    let face = master_face(admitted)?;
    let rhombus = rhombus_on(lattice, master_face_of(face), admitted);
    let triple = table.corner_ids(face, rhombus);
    if !triple_below(lattice.vertex_count(), triple) {
        return Err(Refusal::Id);
    }
    Ok(Located {
        triple,
        weights: rhombus.weights(),
    })
}

// The id with the greatest weight in total order, the last of equals.
#[tactic(auto, unfolding(crate::specs::Location::last_greatest))]
fn last_greatest(t: Triple, weights: Weights) -> u16
    ensures { result ≡ last_greatest t weights }
{
    let u = binary64::rank(weights.u);
    let v = binary64::rank(weights.v);
    let w = binary64::rank(weights.w);
    if (u <= w) & (v <= w) {
        return t.third;
    }
    if u <= v { t.second } else { t.first }
}

// The corner of the located triangle with the greatest weight.
pub fn find_nearest_vertex(
    frequency: u32,
    id_table: &[u16],
    direction: Vector3,
) -> Result<u16, Refusal>
    ensures { result ≡ analytic_nearest frequency id_table.now direction }
{
    let located = locate(frequency, id_table, direction)?;
    Ok(last_greatest(located.triple, located.weights))
}
