// The frequency of a lattice, and the numbers that belong to it.
ghost use Rattle.std.specs.Prelude.{◌≡◌, ◌+◌, ◌≤◌};
ghost use Rattle.icosahedron.specs.Slots.{IsFrequency, slot_of, slots_per_face, lattice_vertex_count};

use crate::{lattice_vertex_count, slots_per_face, tri_index};
use refusal::Refusal;

// A frequency that row 1 lets pass: from 1 to 80.
#[derive(Clone, Copy, Debug)]
pub struct Frequency {
    pub n: usize,
    pub ghost in_range: { IsFrequency n },
}

impl Frequency {
    ghost use Rattle.icosahedron.specs.Frequency.{frequency_of, frequency_number};

    // Row 1.
    #[tactic(auto, unfolding(crate::specs::Slots::frequency_fits))]
    pub fn new(n: usize) -> Result<Frequency, Refusal>
        ensures { frequency_number result ≡ frequency_of n }
    {
        if (1..=80).contains(&n) {
            Ok(Frequency { n })
        } else {
            Err(Refusal::Frequency)
        }
    }

    // The place of the lattice point (a, b, n - a - b) among the slots of its face.
    pub fn tri_index(self, a: usize, b: usize) -> usize
        requires { a + b ≤ self.n }
        ensures { result ≡ slot_of self.n a b }
    {
        tri_index(self.n, a, b)
    }

    // How many lattice points a master face has.
    pub fn slots_per_face(self) -> usize
        ensures { result ≡ slots_per_face self.n }
    {
        slots_per_face(self.n)
    }

    // How many vertices the lattice has.
    pub fn vertex_count(self) -> usize
        ensures { result ≡ lattice_vertex_count self.n }
    {
        lattice_vertex_count(self.n)
    }
}
