// The side of a grid: how many cells lie along the edge of a face.
ghost use Rattle.std.specs.Prelude.{◌≡◌, ◌≤◌, true, ◌==◌};
ghost use Rattle.mesh.specs.Rows.{greatest_count};
ghost use Rattle.grid.specs.Settings.{usual_factor, factor_fits};
ghost use Rattle.grid.specs.Cells.{side_across, side_of};

use crate::settings::is_usual_factor;
use binary64::ceil;
use root::sqrt;

// How many vertices a mesh has that row 2 lets pass.
#[derive(Clone, Copy)]
pub struct VertexCount {
    pub count: usize,
    pub ghost some: { 1 ≤ count },
    pub ghost few: { count ≤ greatest_count },
}

impl VertexCount {
    // The number whose ceiling is the side.
    fn side_across(self, factor: f64) -> f64
        ensures { result ≡ side_across factor self.count }
    {
        sqrt(self.count as f64 / 6.0) * factor
    }

    // The side g of the grid of a mesh with so many vertices.
    pub fn side(self, factor: f64) -> usize
        requires { factor_fits factor ≡ true }
        ensures { result ≡ side_of factor self.count }
    {
        let cells = std::num::truncating_f64_to_u64(ceil(self.side_across(factor))) as usize;
        cells.max(2)
    }

    // Whether that side is g where the factor is 1.2: the least one, 2 at least, with 6 · count ≤ 25 · g², in whole numbers.
    pub(crate) fn usual_side_is(self, g: usize) -> bool
        ensures { result ≡ (g == side_of usual_factor self.count) }
    {
        if (g < 2) | (g > 126) {
            return false;
        }
        let reach = 25 * (g * g);
        let reach_before = 25 * ((g - 1) * (g - 1));
        (6 * self.count <= reach) & ((g == 2) | (reach_before < 6 * self.count))
    }

    // Whether the side for a factor is g. At 1.2 no root is taken, so that a query of a usual grid doesn't wait for one; else two comparisons stand for the ceiling.
    pub(crate) fn side_is(self, g: usize, factor: f64) -> bool
        requires { factor_fits factor ≡ true }
        ensures { result ≡ (g == side_of factor self.count) }
    {
        if is_usual_factor(factor) {
            return self.usual_side_is(g);
        }
        if (g < 2) | (g > 420) {
            return false;
        }
        let across = self.side_across(factor);
        (across <= (g as f64)) & ((g == 2) | (((g - 1) as f64) < across))
    }
}
