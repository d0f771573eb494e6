// The settings of a grid, and the rows that refuse them.
ghost use Rattle.std.specs.Prelude.{◌≡◌, true, Ok};
ghost use Rattle.std.specs.Float.Ieee.{le};
ghost use Rattle.grid.specs.Settings.{usual_factor, greatest_factor, margin_fits, settings_rows};

use refusal::Refusal;

// What a grid is built with: the factor of its side, and how many rows and columns the cells of a vertex reach to each side of its own.
#[derive(Clone, Copy)]
pub struct Settings {
    pub factor: f64,
    pub margin: u32,
}

// The greatest margin of a grid.
const GREATEST_MARGIN: u32 = 3;

impl Settings {
    // Rows 19 and 20.
    pub fn check(self) -> Result<(), Refusal>
        ensures { result ≡ settings_rows self (Ok tt) }
    {
        if !((self.factor >= 0.5) & (self.factor <= 4.0)) {
            return Err(Refusal::Factor);
        }
        if self.margin > GREATEST_MARGIN {
            return Err(Refusal::Margin);
        }
        Ok(())
    }

    // Whether the factor is 1.2, and the margin one that row 20 lets pass.
    #[inline(always)]
    pub(crate) fn is_usual(self) -> bool
        ensures { result ≡ true → (self.factor ≡ usual_factor) × (margin_fits self.margin ≡ true) }
    {
        if !((self.factor <= 4.0) & (self.margin <= GREATEST_MARGIN)) {
            return false;
        }
        is_usual_factor(self.factor)
    }
}

// Whether a factor that is at most 4, and so no NaN, is 1.2: by its bits, which are the number itself. `factor == 1.2` would need a law more, that equal doubles other than zero are the same.
#[inline(always)]
pub(crate) fn is_usual_factor(factor: f64) -> bool
    requires { le factor greatest_factor ≡ true }
    ensures { result ≡ true → factor ≡ usual_factor }
{
    f64::to_bits(factor) == 0x3ff3_3333_3333_3333
}
