// A double taken apart into sign, significand and exponent, and the one function that rounds an exact
// value, to nearest, ties to even (IEEE 754-2019, 4.3.1), and packs it again.
#![tactic(auto)]

ghost use Rattle.std.specs.Prelude.{◌≡◌, cond, ◌+◌, ◌*◌, ◌%◌, ◌^◌, ◌<◌, ◌≤◌, T};
ghost use Rattle.std.specs.Float.{binary64};
ghost use Rattle.std.specs.Float.Ieee.{of_bits, round};
ghost use Rattle.std.specs.Float.Ieee.Exact.{HasValue};
ghost use Rattle.std.specs.Float.Ieee.Nearest.{closest};
ghost use Rattle.std.specs.Float.Ieee.Scale.{finite};
ghost use Rattle.words.specs.Value.{value};
ghost use Rattle.rounding.specs.Scale.{unpacked_scale, product_scale, high_word_scale};

pub mod laws;

use words::TwoWords;

// Where a significand m and an exponent e stand for m * 2^e / 2^scale: the scales of an unpacked significand, of one
// brought to the top bit of a word, of a product of two such in two words, and of the high word of two alone.
pub const UNPACKED_SCALE: u64 = 1074;

pub const NORMALISED_SCALE: u64 = UNPACKED_SCALE + 64;

pub const PRODUCT_SCALE: u64 = NORMALISED_SCALE + NORMALISED_SCALE;

pub const HIGH_WORD_SCALE: u64 = PRODUCT_SCALE + 64;

// Whether x is neither an infinity nor a NaN.
#[tactic(auto, using(crate::proofs::Finite::finite_alike))]
pub fn is_finite(x: f64) -> bool
    ensures { result ≡ finite x }
{
    x.is_finite()
}

// The value significand * 2^exponent / 2^UNPACKED_SCALE, with its sign. The ranges are those of binary64 (IEEE 754-2019, 3.4).
#[derive(Clone, Copy)]
pub struct Unpacked {
    pub negative: bool,
    pub significand: u64,
    pub exponent: u64,
    pub ghost significand_in_range: { significand < 2 ^ 53 },
    pub ghost exponent_in_range: { exponent < 2046 },
}

// A subnormal has the exponent of the least normal values, and no leading bit.
pub fn unpack(x: f64) -> Unpacked
    requires { T (finite x) }
    ensures { HasValue x result.negative (result.significand * 2 ^ result.exponent) (2 ^ unpacked_scale) }
{
    let bits = x.to_bits();
    let negative = 0x8000_0000_0000_0000 <= bits;
    let field = bits % 0x8000_0000_0000_0000 / 0x10_0000_0000_0000;
    let fraction = bits % 0x10_0000_0000_0000;
    if field == 0 {
        return Unpacked {
            negative,
            significand: fraction,
            exponent: 0,
        };
    }
    Unpacked {
        negative,
        significand: 0x10_0000_0000_0000 + fraction,
        exponent: field - 1,
    }
}

// The value significand * 2^exponent / 2^NORMALISED_SCALE, its significand at the top of the word.
#[derive(Clone, Copy)]
pub struct NormalisedSignificand {
    pub significand: u64,
    pub exponent: u64,
    pub ghost top_bit: { 2 ^ 63 ≤ significand },
    pub ghost last_bits: { significand % 2048 ≡ 0 },
    pub ghost exponent_in_range: { exponent < 2100 },
}

// An unpacked significand brought to its top bit. The shift is the count of its leading zeros.
pub fn normalise_significand(x: Unpacked) -> NormalisedSignificand
    requires { 0 < x.significand }
    ensures { result.significand * 2 ^ result.exponent ≡ x.significand * 2 ^ x.exponent * 2 ^ 64 }
{
    let zeros = x.significand.leading_zeros() as u64;
    NormalisedSignificand {
        significand: x.significand << zeros,
        exponent: x.exponent + 64 - zeros,
    }
}

// The whole number nearest to word / 2^11, a tie to the even one (IEEE 754-2019, 4.3.1): what is
// added carries where the 11 dropped bits are above a half, and at a half where the last bit kept
// is 1.
fn round_significand(word: u64) -> u64
    ensures { result ≡ closest word 2048 }
{
    let kept = word / 2048;
    let dropped = word % 2048;
    kept + (dropped + 1023 + kept % 2) / 2048
}

// The double of a sign and the bits below it, which are no NaN's. The sign is told by a test: as a number, times 2^63, it made
// a fused operation a twentieth slower.
fn pack(negative: bool, magnitude: u64) -> f64
    requires { magnitude ≤ 2047 * 2 ^ 52 }
    ensures { result ≡ of_bits binary64 (cond negative (2 ^ 63) 0 + magnitude) }
{
    if negative {
        f64::from_bits(magnitude + 0x8000_0000_0000_0000)
    } else {
        f64::from_bits(magnitude)
    }
}

// emax of binary64; emin is 1 - emax (IEEE 754-2019, 3.3).
const GREATEST_EXPONENT: u64 = 1023;

// The place of a word's top bit.
const TOP_PLACE: u64 = 63;

// The exponent of `round_and_pack_word` from which the value is normal: its leading bit counts 2^emin or more.
const LEAST_NORMAL: u64 = HIGH_WORD_SCALE - TOP_PLACE - (GREATEST_EXPONENT - 1);

// And the one from which it overflows: the leading bit counts 2^(emax + 1). A value below it whose significand
// rounds up to 2^53 at the greatest exponent is carried into the pattern of an infinity (IEEE 754-2019, 4.3.1).
const LEAST_OVERFLOW: u64 = HIGH_WORD_SCALE - TOP_PLACE + (GREATEST_EXPONENT + 1);

// significand * 2^exponent / 2^HIGH_WORD_SCALE rounded (IEEE 754-2019, 4.3.1), for a significand with its top
// bit set. The leading bit of the rounded significand, or a carry out of it, adds to the exponent's
// field.
pub fn round_and_pack_word(negative: bool, significand: u64, exponent: u64) -> f64
    requires { 2 ^ 63 ≤ significand }
    ensures { result ≡ round binary64 negative (significand * 2 ^ exponent) (2 ^ high_word_scale) }
{
    if exponent < LEAST_NORMAL {
        let subnormal = words::shift_right_sticky(significand, LEAST_NORMAL - exponent);
        return pack(negative, round_significand(subnormal));
    }
    if exponent < LEAST_OVERFLOW {
        let rounded = round_significand(significand);
        pack(
            negative,
            (exponent - LEAST_NORMAL) * 0x10_0000_0000_0000 + rounded,
        )
    } else {
        pack(negative, 0x7ff0_0000_0000_0000)
    }
}

// significand * 2^exponent / 2^PRODUCT_SCALE rounded (IEEE 754-2019, 4.3.1), for a significand of two words
// above 0. It is brought to its top bit first.
pub fn round_and_pack(negative: bool, significand: TwoWords, exponent: u64) -> f64
    requires nonzero { 0 < value significand }
    requires exponent_in_range { exponent < 2 ^ 32 }
    ensures { result ≡ round binary64 negative (value significand * 2 ^ exponent) (2 ^ product_scale) }
{
    let normalised = words::normalise_words(significand);
    let word = words::collapse_sticky(normalised.words);
    round_and_pack_word(negative, word, exponent + 128 - normalised.shift)
}
