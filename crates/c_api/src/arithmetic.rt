// Doubles: order, minimum, conversions to whole numbers and to binary32, fused multiplication and square root.
ghost use Rattle.std.specs.Prelude.{◌≡◌};
ghost use Rattle.std.specs.Float.{binary32, binary64};
ghost use Rattle.binary64.specs.TotalOrder.{total_ordering, rank_of};
ghost use Rattle.binary64.specs.Minimum.{minimum_number};
ghost use Rattle.binary64.specs.Integral.{floor_of, ceil_of};
ghost use Rattle.binary64.specs.Convert.{converted_of};
ghost use Rattle.binary32.specs.Convert.{convert_format};
ghost use Rattle.fused.specs.Fused.{fused_multiply_add};
ghost use Rattle.root.specs.Root.{square_root};
ghost use Rattle.c_api.specs.Code.{ordering_code, conversion_answer};

use crate::ConversionAnswer;

// How the datum of the bit pattern x stands to that of y in the total order: -1, 0 or 1.
pub fn koshirga_total_cmp(x: u64, y: u64) -> i32
    ensures { result ≡ ordering_code (total_ordering x y) }
{
    binary64::total_cmp(x, y) as i32
}

pub fn koshirga_rank(x: f64) -> u64
    ensures { result ≡ rank_of x }
{
    binary64::rank(x)
}

pub fn koshirga_minimum_number(x: f64, y: f64) -> f64
    ensures { result ≡ minimum_number x y }
{
    binary64::minimum_number(x, y)
}

pub fn koshirga_floor(x: f64) -> f64
    ensures { result ≡ floor_of x }
{
    binary64::floor(x)
}

pub fn koshirga_ceil(x: f64) -> f64
    ensures { result ≡ ceil_of x }
{
    binary64::ceil(x)
}

pub fn koshirga_to_i64(x: f64) -> ConversionAnswer
    ensures { result ≡ conversion_answer (converted_of x) }
{
    binary64::to_i64(x).into()
}

pub fn koshirga_to_f32(x: f64) -> f32
    ensures { result ≡ convert_format binary32 x }
{
    binary32::to_f32(x)
}

pub fn koshirga_mul_add(a: f64, b: f64, c: f64) -> f64
    ensures { result ≡ fused_multiply_add binary64 a b c }
{
    fused::mul_add(a, b, c)
}

pub fn koshirga_sqrt(x: f64) -> f64
    ensures { result ≡ square_root binary64 x }
{
    root::sqrt(x)
}

// The same, its digits taken one by one.
pub fn koshirga_sqrt_by_digits(x: f64) -> f64
    ensures { result ≡ square_root binary64 x }
{
    root::sqrt_by_digits(x)
}
