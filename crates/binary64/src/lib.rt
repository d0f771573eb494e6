// Helpers on binary64 that need no wide arithmetic: total order, minimum, floor, ceiling, conversion to a whole number.
// IEEE 754-2019 decides; the definitions stand in specs/.
#![tactic(auto)]

ghost use Rattle.std.specs.Prelude.{◌≡◌, true, false, T, pos};
ghost use Rattle.std.specs.Float.{fin};
ghost use Rattle.std.specs.Float.Ieee.{lt, le, to_unsigned};
ghost use Rattle.binary64.specs.Constants.{positive_zero};
ghost use Rattle.binary64.specs.TotalOrder.{total_ordering, rank_of_bits, rank_of};
ghost use Rattle.binary64.specs.Minimum.{minimum_number};
ghost use Rattle.binary64.specs.Integral.{floor_of, ceil_of};
ghost use Rattle.binary64.specs.Convert.{to_i64, least_of_range, above_range, conversion_of, converted_of};

pub mod laws;

use std::cmp::Ordering;

// The place of a bit pattern among all 2^64 in the total order, counted from 0.
#[tactic(auto, unfolding(crate::specs::TotalOrder::rank_of_bits))]
pub fn rank_of_bits(bits: u64) -> u64
    ensures { result ≡ rank_of_bits bits }
{
    if bits < 0x8000_0000_0000_0000 {
        bits + 0x8000_0000_0000_0000
    } else {
        0xffff_ffff_ffff_ffff - bits
    }
}

// The rank of a double. A NaN counts as 0x7ff8_0000_0000_0000.
pub fn rank(x: f64) -> u64
    ensures { result ≡ rank_of x }
{
    if x.is_nan() {
        return rank_of_bits(0x7ff8_0000_0000_0000);
    }
    rank_of_bits(f64::to_bits(x))
}

// How the datum of the bit pattern x stands to that of y in the total order. On patterns and by rank: the library's `total_cmp` takes
// floats that are no NaN.
#[tactic(auto, using(crate::proofs::TotalOrder::total_ordering_by_rank))]
pub fn total_cmp(x: u64, y: u64) -> Ordering
    ensures { result ≡ total_ordering x y }
{
    rank_of_bits(x).cmp(&rank_of_bits(y))
}

// The lesser of two doubles: a NaN is skipped, and −0 is below +0, whichever comes first.
pub fn minimum_number(x: f64, y: f64) -> f64
    ensures { result ≡ minimum_number x y }
{
    if x == y {
        // One datum, or two zeros: −0 has the lesser rank.
        if rank(y) < rank(x) { y } else { x }
    } else if x.is_nan() {
        // The sum of two NaNs is a quiet one (IEEE 754-2019, 6.2), which either alone might not be.
        if y.is_nan() { x + y } else { y }
    } else if y < x {
        y
    } else {
        x
    }
}

// The greatest whole number that is not above x. The sign of a zero stays, and so do an infinity and a NaN.
#[tactic(auto, using(crate::proofs::Integral::floor_is_library))]
pub fn floor(x: f64) -> f64
    ensures { result ≡ floor_of x }
{
    x.floor()
}

// The least whole number that is not below x. The sign of a zero stays, and so do an infinity and a NaN.
#[tactic(auto, using(crate::proofs::Integral::ceil_is_library))]
pub fn ceil(x: f64) -> f64
    ensures { result ≡ ceil_of x }
{
    x.ceil()
}

// The whole part of a positive number below 2^53, by its digits with the leading one: the exponent says how many of them are a fraction's, and below 1 all are.
// No branch tells the numbers below 1 from the others: a caller's may come in any order, and each wrong guess would cost more than the shift.
// The library's `truncating_f64_to_u64` has that branch.
pub fn whole_digits(x: f64) -> u64
    requires positive { lt positive_zero x ≡ true }
    requires with_fraction { lt x (fin false 1 (pos 53)) ≡ true }
    ensures { result ≡ to_unsigned 64 x }
{
    let bits = f64::to_bits(x);
    let digits = bits % 0x10_0000_0000_0000 + 0x10_0000_0000_0000;
    let fraction = 1075 - bits / 0x10_0000_0000_0000;
    // A shift by 64 or more is not defined, and one by 63 leaves none of the 53 digits.
    digits >> fraction.min(63)
}

// What became of a value that was converted to a whole number.
#[derive(Clone, Copy, Debug, PartialEq, Eq)]
pub enum Conversion {
    // It is a whole number of the range, and is the result.
    Kept,
    // It had a fraction, which was cut off toward zero.
    Cut,
    // It lies beyond the range, and the nearer end is the result.
    Held,
    // It was a NaN, and the result is 0.
    NotANumber,
}

// A converted value, with what became of it. Each case has its number, so a Result or a number within some cases would say less.
#[derive(Clone, Copy, Debug, PartialEq, Eq)]
pub struct Converted {
    pub whole: i64,
    pub how: Conversion,
}

// From here on no double has a fraction: 2^53.
pub const NO_FRACTION: i64 = 9007199254740992;

// What became of a value of the range, by the whole number that is left of it. From 2^53 on there is no fraction to cut off.
fn kept_or_cut(x: f64, whole: i64) -> Conversion
    requires below_end { lt x above_range ≡ true }
    requires from_least { le least_of_range x ≡ true }
    requires its_whole { whole ≡ to_i64 x }
    ensures { result ≡ conversion_of x }
{
    if whole >= NO_FRACTION || whole <= -NO_FRACTION || whole as f64 == x {
        Conversion::Kept
    } else {
        Conversion::Cut
    }
}

// x without its fraction. What lies beyond the range of an i64 gives the nearer end, and a NaN gives 0.
pub fn to_i64(x: f64) -> Converted
    ensures { result ≡ converted_of x }
{
    if x < 9223372036854775808.0 {
        if x >= -9223372036854775808.0 {
            let whole = std::num::truncating_f64_to_i64(x);
            Converted {
                whole,
                how: kept_or_cut(x, whole),
            }
        } else {
            Converted {
                whole: i64::MIN,
                how: Conversion::Held,
            }
        }
    } else if x.is_nan() {
        Converted {
            whole: 0,
            how: Conversion::NotANumber,
        }
    } else {
        Converted {
            whole: i64::MAX,
            how: Conversion::Held,
        }
    }
}
