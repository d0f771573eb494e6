// The id table of a lattice: the ids of the twenty faces' slots, one face behind another.
ghost use Rattle.std.specs.Prelude.{◌≡◌, ◌*◌, ◌≤◌, length};
ghost use Rattle.icosahedron.specs.Slots.{slots_per_face};

use super::{LatticeCoordinates, Rhombus};
use icosahedron::{Face, Frequency};
use refusal::Refusal;
use vector::Triple;

// A table with an id for every slot of its frequency.
#[derive(Clone, Copy)]
pub struct SlotIds<'a> {
    frequency: Frequency,
    ids: &'a [u16],
    ghost room: { 20 * slots_per_face frequency.n ≤ length ids.now },
}

impl<'a> SlotIds<'a> {
    ghost use Rattle.std.specs.Prelude.{MatchResult, nat_le, true, false};
    ghost use Rattle.refusal.specs.declared.Refusal.TheVariants as refusal;
    ghost use Rattle.analytic.specs.SubTriangle.{clamped_slot, sub_triangle};
    ghost use Rattle.analytic.specs.Location.{id_at, corner_ids};

    // Row 8.
    #[tactic(auto, using(icosahedron::proofs::Slots::slots_per_face_le))]
    pub fn new(frequency: Frequency, ids: &'a [u16]) -> Result<SlotIds<'a>, Refusal>
        ensures { MatchResult result
            (λ t. (t.frequency.n ≡ frequency.n) × (t.ids.now ≡ ids.now) × (nat_le (20 * slots_per_face frequency.n) (length ids.now) ≡ true))
            (λ e. (e ≡ refusal.Room) × (nat_le (20 * slots_per_face frequency.n) (length ids.now) ≡ false)) }
    {
        if ids.len() < 20 * frequency.slots_per_face() {
            return Err(Refusal::Room);
        }
        Ok(SlotIds { frequency, ids })
    }

    // The slot of a lattice point, brought into the face.
    #[tactic(auto, unfolding(crate::specs::SubTriangle::clamped_slot))]
    fn clamped_slot(&self, q: LatticeCoordinates) -> usize
        ensures { result ≡ clamped_slot self.now.frequency.n q }
    {
        let a = q.a.min(self.frequency.n);
        let b = q.b.min(self.frequency.n - a);
        self.frequency.tri_index(a, b)
    }

    // The id of a lattice point of a face.
    #[tactic(auto, using(crate::proofs::TableIndex::clamped_slot_below, crate::proofs::TableIndex::index_below), unfolding(crate::specs::Location::id_at))]
    fn id_at(&self, face: Face, q: LatticeCoordinates) -> u16
        ensures { result ≡ id_at self.now.frequency.n self.now.ids.now face.index q }
    {
        let index = face.index * self.frequency.slots_per_face() + self.clamped_slot(q);
        self.ids[index]
    }

    // The ids of the corners of the sub-triangle that a point of a rhombus lies in.
    // The two corners that both sub-triangles have are read before their order is known, and no branch asks for it.
    #[inline(always)]
    #[tactic(auto, unfolding(crate::specs::Location::corner_ids))]
    pub fn corner_ids(&self, face: Face, rhombus: Rhombus) -> Triple
        ensures { result ≡ corner_ids self.now.frequency.n self.now.ids.now face.index (sub_triangle rhombus.least.a rhombus.least.b rhombus.fractions.u rhombus.fractions.v rhombus.fractions.w) }
    {
        let LatticeCoordinates { a, b } = rhombus.least;
        let beside_a = self.id_at(face, LatticeCoordinates { a: a + 1, b });
        let beside_b = self.id_at(face, LatticeCoordinates { a, b: b + 1 });
        let beside = [beside_b, beside_a];
        let up = usize::from(rhombus.points_up());
        let down = 1 - up;
        Triple {
            first: beside[up],
            second: beside[down],
            third: self.id_at(
                face,
                LatticeCoordinates {
                    a: a + down,
                    b: b + down,
                },
            ),
        }
    }
}
