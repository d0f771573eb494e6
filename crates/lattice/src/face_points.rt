// The points of the master faces: corners, edges, their order, and the six steps from one to another.
ghost use Rattle.std.specs.Prelude.{◌≡◌, ◌+◌, ◌≤◌, if◌then◌else◌};
ghost use Rattle.lattice.specs.Lattice.{point_at};
ghost use Rattle.lattice.specs.Appearances.{OnLattice};

use icosahedron::{Corner, Face, Frequency};

// A point of a master face of a lattice: a on the first corner, b on the second, the rest on the third.
#[derive(Clone, Copy, Debug)]
pub struct FacePoint {
    pub frequency: Frequency,
    pub face: Face,
    pub a: usize,
    pub b: usize,
    pub ghost on_lattice: { OnLattice frequency.n (point_at face.index a b) },
}

// The six steps that keep a + b + c, by the weight that falls and the weight that rises.
#[derive(Clone, Copy, Debug, PartialEq, Eq)]
pub enum Step {
    FirstToThird,
    FirstToSecond,
    SecondToThird,
    SecondToFirst,
    ThirdToSecond,
    ThirdToFirst,
}

impl Step {
    pub const ALL: [Step; 6] = [
        Step::FirstToThird,
        Step::FirstToSecond,
        Step::SecondToThird,
        Step::SecondToFirst,
        Step::ThirdToSecond,
        Step::ThirdToFirst,
    ];
}

impl FacePoint {
    ghost use Rattle.icosahedron.specs.Corners.{corner_number};
    ghost use Rattle.lattice.specs.Appearances.{is_corner};
    ghost use Rattle.lattice.specs.Shared.{corner_at, edge_at};
    ghost use Rattle.lattice.specs.Naming.{IsPoint, point_of, place_of, step_from, number_of_step};
    ghost use Rattle.lattice.specs.Inside.{is_inside};

    // The frequency and the face stand apart: of a struct of both, each place that reads one of them at a point would name one field more.
    pub fn new(frequency: Frequency, face: Face, a: usize, b: usize) -> FacePoint
        requires { a + b ≤ frequency.n }
        ensures { IsPoint result frequency (point_at face.index a b) }
    {
        FacePoint {
            frequency,
            face,
            a,
            b,
        }
    }

    // The point with all weight on one corner.
    pub fn on_corner(frequency: Frequency, face: Face, corner: Corner) -> FacePoint
        ensures { IsPoint result frequency (corner_at frequency.n face.index (corner_number corner)) }
    {
        match corner {
            Corner::A => FacePoint::new(frequency, face, frequency.n, 0),
            Corner::B => FacePoint::new(frequency, face, 0, frequency.n),
            Corner::C => FacePoint::new(frequency, face, 0, 0),
        }
    }

    // A point of the edge opposite to a corner, with its weight on the next corner.
    pub fn on_edge(frequency: Frequency, face: Face, opposite: Corner, weight: usize) -> FacePoint
        requires { weight ≤ frequency.n }
        ensures { IsPoint result frequency (edge_at frequency.n face.index (corner_number opposite) weight) }
    {
        match opposite {
            Corner::A => FacePoint::new(frequency, face, 0, weight),
            Corner::B => FacePoint::new(frequency, face, frequency.n - weight, 0),
            Corner::C => FacePoint::new(frequency, face, weight, frequency.n - weight),
        }
    }

    // The place of a point in the id table.
    pub fn place(self) -> usize
        ensures { result ≡ place_of self.frequency.n (point_of self) }
    {
        self.face.index * self.frequency.slots_per_face() + self.frequency.tri_index(self.a, self.b)
    }

    // Another point of the face.
    fn moved(self, a: usize, b: usize) -> FacePoint
        requires { a + b ≤ self.frequency.n }
        ensures { IsPoint result self.frequency (point_at self.face.index a b) }
    {
        FacePoint::new(self.frequency, self.face, a, b)
    }

    // The point that a step leads to; the point itself where the weight that falls is zero.
    pub fn step(self, step: Step) -> FacePoint
        ensures { IsPoint result self.frequency (step_from self.frequency.n (point_of self) (number_of_step step)) }
    {
        let n = self.frequency.n;
        match step {
            Step::FirstToThird if self.a > 0 => self.moved(self.a - 1, self.b),
            Step::FirstToSecond if self.a > 0 => self.moved(self.a - 1, self.b + 1),
            Step::SecondToThird if self.b > 0 => self.moved(self.a, self.b - 1),
            Step::SecondToFirst if self.b > 0 => self.moved(self.a + 1, self.b - 1),
            Step::ThirdToSecond if self.a + self.b < n => self.moved(self.a, self.b + 1),
            Step::ThirdToFirst if self.a + self.b < n => self.moved(self.a + 1, self.b),
            _ => self,
        }
    }

    #[tactic(auto, unfolding(crate::specs::Inside::is_inside))]
    pub fn is_inside(self) -> bool
        ensures { result ≡ is_inside self.frequency.n (point_of self) }
    {
        (self.a > 0) & ((self.b > 0) & (self.a + self.b < self.frequency.n))
    }

    // How many neighbours the vertex at a point has: five where one weight is n, and six elsewhere.
    pub fn neighbour_count(self) -> u32
        ensures { result ≡ (if is_corner self.frequency.n (point_of self) then 5 else 6) }
    {
        let n = self.frequency.n;
        if (self.a == n) | ((self.b == n) | (self.a + self.b == 0)) {
            5
        } else {
            6
        }
    }
}
