// Fused multiply-add on doubles: the exact product plus the addend in two words, rounded once, to
// nearest, ties to even (IEEE 754-2019, 5.4.1 and 4.3.1).
#![tactic(auto)]

ghost use Rattle.std.specs.Prelude.{◌≡◌, true, false, ◌&&◌, ◌+◌, ◌-◌, ◌*◌, ◌^◌, ◌<◌};
ghost use Rattle.std.specs.Float.{binary64};
ghost use Rattle.std.specs.Float.Ieee.{sum, neg, le, unlike};
ghost use Rattle.std.specs.Float.Ieee.Scale.{finite};
ghost use Rattle.words.specs.Value.{value};
ghost use Rattle.rounding.specs.Scale.{unpacked_scale, product_scale};
ghost use Rattle.binary64.specs.Constants.{positive_zero, half};
ghost use Rattle.fused.specs.Fused.{fused_multiply_add};
ghost use Rattle.fused.specs.Operands.{Alignable};
ghost use Rattle.fused.specs.Tiny.{is_not_tiny};

pub mod laws;

use rounding::{NORMALISED_SCALE, PRODUCT_SCALE, Unpacked};
use words::{TwoWords, choose};

// Whether none is an infinity or a NaN: each difference is 0, and else a NaN, which stays.
// One comparison for all three: `is_finite` of each made a fused operation an eighth slower.
fn all_finite(a: f64, b: f64, c: f64) -> bool
    ensures { result ≡ (finite a && (finite b && finite c)) }
{
    (a - a) + ((b - b) + (c - c)) == 0.0
}

// a * b + c where one is an infinity or a NaN. Finite factors leave c, however large their product.
fn mul_add_special(a: f64, b: f64, c: f64) -> f64
    requires { (finite a && (finite b && finite c)) ≡ false }
    ensures { result ≡ fused_multiply_add binary64 a b c }
{
    if rounding::is_finite(a) & rounding::is_finite(b) {
        c
    } else {
        a * b + c
    }
}

// A number of two words and its sign.
#[derive(Clone, Copy)]
struct SignedWords {
    negative: bool,
    words: TwoWords,
}

// The value number * 2^exponent / 2^PRODUCT_SCALE, which another may be aligned with and added to.
#[derive(Clone, Copy)]
struct Scaled {
    number: SignedWords,
    exponent: u64,
    ghost alignable: { Alignable (value number.words) },
    ghost exponent_in_range: { exponent < 2 ^ 32 },
}

// x * y, exactly. The factors are halved, which leaves a sum room to carry; their last bits are 0.
fn exact_product(x: Unpacked, y: Unpacked) -> Scaled
    requires first_nonzero { 0 < x.significand }
    requires second_nonzero { 0 < y.significand }
    ensures sign { result.number.negative ≡ unlike x.negative y.negative }
    ensures exact { value result.number.words * 2 ^ result.exponent ≡ x.significand * 2 ^ x.exponent * (y.significand * 2 ^ y.exponent) * 2 ^ (product_scale - unpacked_scale - unpacked_scale) }
{
    let m = rounding::normalise_significand(x);
    let n = rounding::normalise_significand(y);
    Scaled {
        number: SignedWords {
            negative: x.negative != y.negative,
            words: words::multiply(m.significand / 2, n.significand / 2),
        },
        exponent: m.exponent + n.exponent + 2,
    }
}

// z, exactly. A quarter of it in the high word is 62 places up, and the two scales make the rest of the
// difference.
fn exact_addend(z: Unpacked) -> Scaled
    requires nonzero { 0 < z.significand }
    ensures sign { result.number.negative ≡ z.negative }
    ensures exact { value result.number.words * 2 ^ result.exponent ≡ z.significand * 2 ^ z.exponent * 2 ^ (product_scale - unpacked_scale) }
{
    let n = rounding::normalise_significand(z);
    Scaled {
        number: SignedWords {
            negative: z.negative,
            words: TwoWords {
                hi: n.significand / 4,
                lo: 0,
            },
        },
        exponent: n.exponent + (PRODUCT_SCALE - NORMALISED_SCALE - 62),
    }
}

// Two numbers of one exponent, added with their signs and rounded (IEEE 754-2019, 4.3.1). An exact
// zero from opposite signs is +0 (IEEE 754-2019, 6.3). The greater of the two, and their sum or
// difference, are chosen without a branch, as a processor could not foresee it.
fn add_aligned(x: SignedWords, y: SignedWords, exponent: u64) -> f64
    requires nonzero { 0 < value x.words + value y.words }
    requires room { value x.words + value y.words < 2 ^ 128 }
    requires exponent_in_range { exponent < 2 ^ 32 }
    ensures { result ≡ sum binary64 x.negative (value x.words * 2 ^ exponent) y.negative (value y.words * 2 ^ exponent) (2 ^ product_scale) }
{
    let swap = x.words < y.words;
    let greater = choose(swap, y, x);
    let lesser = choose(swap, x, y);
    let total = choose(
        x.negative == y.negative,
        greater.words + lesser.words,
        greater.words - lesser.words,
    );
    if total == TwoWords::ZERO {
        return 0.0;
    }
    rounding::round_and_pack(greater.negative, total, exponent)
}

// Product and addend, the one of the lower exponent aligned with the other, added and rounded (IEEE
// 754-2019, 4.3.1). Which of them is shifted is chosen without a branch, likewise.
fn align_and_add(product: Scaled, addend: Scaled) -> f64
    ensures { result ≡ sum binary64 product.number.negative (value product.number.words * 2 ^ product.exponent) addend.number.negative (value addend.number.words * 2 ^ addend.exponent) (2 ^ product_scale) }
{
    let swap = product.exponent < addend.exponent;
    let upper = choose(swap, addend, product);
    let lower = choose(swap, product, addend);
    let shifted = SignedWords {
        negative: lower.number.negative,
        words: words::shift_words_right_sticky(lower.number.words, upper.exponent - lower.exponent),
    };
    add_aligned(upper.number, shifted, upper.exponent)
}

// a * b + c of finite values. Where a factor is 0 the product is exact.
fn mul_add_finite(a: f64, b: f64, c: f64) -> f64
    requires { (finite a && (finite b && finite c)) ≡ true }
    ensures { result ≡ fused_multiply_add binary64 a b c }
{
    let x = rounding::unpack(a);
    let y = rounding::unpack(b);
    let z = rounding::unpack(c);
    if (x.significand == 0) | (y.significand == 0) {
        return a * b + c;
    }
    let product = exact_product(x, y);
    if z.significand == 0 {
        return rounding::round_and_pack(
            product.number.negative,
            product.number.words,
            product.exponent,
        );
    }
    align_and_add(product, exact_addend(z))
}

// a * b + c, rounded once (IEEE 754-2019, 4.3.1): the exact product plus the addend, in two words.
pub fn mul_add(a: f64, b: f64, c: f64) -> f64
    ensures { result ≡ fused_multiply_add binary64 a b c }
{
    if all_finite(a, b, c) {
        mul_add_finite(a, b, c)
    } else {
        mul_add_special(a, b, c)
    }
}

// 2^-900. A product of two doubles above it has no digit below the smallest double, and half of a
// double above it is a double.
const NOT_TINY: f64 = 1.1830521861667747e-271;

// Whether x or -x is above it. Not both are, and `!=` says that one is: `|` would be a branch for each, and where signs come in any
// order the first is guessed wrong at every other number.
fn is_not_tiny(x: f64) -> bool
    ensures { result ≡ is_not_tiny x }
{
    (x > NOT_TINY) != (x < -NOT_TINY)
}

// Whether a * b - c, rounded once (IEEE 754-2019, 4.3.1), is at most 0. Where the product rounded alone is not c, it lies
// on the same side of c, and the exact sum is not worked out.
pub fn product_at_most(a: f64, b: f64, c: f64) -> bool
    ensures { result ≡ le (fused_multiply_add binary64 a b (neg c)) positive_zero }
{
    let product = a * b;
    if ((product < c) | (c < product)) & is_not_tiny(product) {
        return product < c;
    }
    mul_add(a, b, -c) <= 0.0
}

// x * 0.5 + 0.5, rounded once (IEEE 754-2019, 4.3.1). The sum alone is rounded, since halving is
// exact or its rounding is too small to show.
pub fn mul_add_halves(x: f64) -> f64
    ensures { result ≡ fused_multiply_add binary64 x half half }
{
    x * 0.5 + 0.5
}
