// The id table: the id of the vertex at each point.
ghost use Rattle.std.specs.Prelude.{◌≡◌, ◌+◌, ◌*◌, ◌≤◌, length};
ghost use Rattle.sequences.specs.Tabulate.{overwrite};
ghost use Rattle.icosahedron.specs.Slots.{slots_per_face};
ghost use Rattle.lattice.specs.Lattice.{id_of, id_table};
ghost use Rattle.lattice.specs.Lent.{HoldsIdTable};

use crate::face_points::{FacePoint, Step};
use icosahedron::{Face, Frequency};

// A slice that begins with the id table of its lattice.
#[derive(Clone, Copy, Debug)]
pub struct IdTable<'a> {
    pub frequency: Frequency,
    pub ids: &'a [u16],
    pub ghost filled: { HoldsIdTable frequency.n ids.now },
}

// A point of the lattice of an id table.
#[derive(Clone, Copy, Debug)]
pub struct TablePoint<'a> {
    pub table: IdTable<'a>,
    pub point: FacePoint,
    pub ghost of_lattice: { point.frequency.n ≡ table.frequency.n },
}

impl<'a> TablePoint<'a> {
    ghost use Rattle.lattice.specs.Naming.{IsPoint, point_of, step_from, number_of_step};
    ghost use Rattle.lattice.specs.Inside.{step_ids};

    // The id of the vertex at the point.
    pub fn id(self) -> u16
        ensures { result ≡ id_of self.entry.point.frequency.n (point_of self.entry.point) }
    {
        self.table.ids[self.point.place()]
    }

    // The point that a step leads to.
    pub fn step(self, step: Step) -> TablePoint<'a>
        ensures { IsPoint result.point self.entry.point.frequency (step_from self.entry.point.frequency.n (point_of self.entry.point) (number_of_step step)) }
    {
        TablePoint {
            table: self.table,
            point: self.point.step(step),
        }
    }

    // The ids at the ends of the six steps, in the order of their places.
    pub fn around(self) -> [u16; 6]
        ensures { result ≡ step_ids self.entry.point.frequency.n (point_of self.entry.point) }
    {
        [
            self.step(Step::FirstToThird).id(),
            self.step(Step::FirstToSecond).id(),
            self.step(Step::SecondToThird).id(),
            self.step(Step::ThirdToSecond).id(),
            self.step(Step::SecondToFirst).id(),
            self.step(Step::ThirdToFirst).id(),
        ]
    }
}

// The id table: a point that is new has the next id, any other the id that its vertex was given before.
// The three loops stand in each pass over the points: an iterator in their place would be a struct of frequency, face, a and b, with a `next`
// that carries from b to a to the face, for four lines. `0..n + 1` and not `0..=n`: a range that holds its end is left from its last round as
// well, and so what a round does would be shown twice.
pub fn fill_ids(frequency: Frequency, ids: &mut [u16])
    requires { 20 * slots_per_face frequency.n ≤ length ids.old }
    ensures { ids.new ≡ overwrite (id_table frequency.n) ids.old }
{
    let n = frequency.n;
    // Counted beside the loops, which go through the places in order: the count is the place, which `place()` would work out again.
    let mut place = 0;
    let mut next: usize = 0;
    for index in 0..20 {
        let face = Face::new(index);
        for a in 0..n + 1 {
            for b in 0..n - a + 1 {
                let named = FacePoint::new(frequency, face, a, b).naming().place();
                if named == place {
                    ids[place] = next as u16;
                    next += 1;
                } else {
                    ids[place] = ids[named];
                }
                place += 1;
            }
        }
    }
}
