// Square root on binary64: squareRoot (IEEE 754-2019, 5.4.1), rounded to nearest, ties to even (IEEE
// 754-2019, 4.3.1). Its digits are taken one by one: by `sqrt_by_digits` always, and by `sqrt` where a
// candidate fails an exact test.
#![tactic(auto)]

ghost use Rattle.std.specs.Prelude.{◌≡◌, false, if◌then◌else◌, ◌==◌, ◌+◌, ◌-◌, ◌*◌, ◌%◌, ◌^◌, ◌<◌, ◌≤◌, ◌↔◌, IsTrue, T};
ghost use Rattle.std.specs.Float.{binary64};
ghost use Rattle.std.specs.Float.Ieee.Positive.{positive};
ghost use Rattle.root.specs.Root.{square_root};

pub mod laws;

use rounding::{HIGH_WORD_SCALE, NORMALISED_SCALE, UNPACKED_SCALE};
use words::TwoWords;

// The number significand^2 + remainder, its significand the integer root: the next one's square is
// above the number.
#[derive(Clone, Copy)]
struct SquareRoot {
    significand: u64,
    remainder: u64,
    ghost greatest: { remainder ≤ 2 * significand },
}

impl SquareRoot {
    // 1 where digits are left behind those worked out, and else 0.
    fn sticky_bit(self) -> u64
        ensures { result ≡ (if self.remainder == 0 then 0 else 1) }
    {
        u64::from(self.remainder != 0)
    }
}

// A square root that is worked out digit by digit: the root of the radicand's digits so far, and
// those still to come.
#[derive(Clone, Copy)]
struct RootState {
    root: SquareRoot,
    radicand: u64,
}

impl RootState {
    ghost use Rattle.root.specs.Digits.{scaled_radicand};

    // One more digit of the root, from two more of the radicand.
    fn next_digit(self) -> Self
        requires { self.root.significand < 2 ^ 59 }
        ensures { (result.root.significand ≤ 2 * self.root.significand + 1) × (scaled_radicand result ≡ 4 * scaled_radicand self) }
    {
        let radicand = self.radicand % 0x4000_0000_0000_0000 * 4;
        let remainder = self.root.remainder * 4 + self.radicand / 0x4000_0000_0000_0000;
        let trial = self.root.significand * 4 + 1;
        if remainder < trial {
            let root = SquareRoot {
                significand: self.root.significand * 2,
                remainder,
            };
            return Self { root, radicand };
        }
        let root = SquareRoot {
            significand: self.root.significand * 2 + 1,
            remainder: remainder - trial,
        };
        Self { root, radicand }
    }

    // `count` more digits of the root.
    fn next_digits(self, count: u64) -> Self
        requires { (self.root.significand + 1) * 2 ^ count ≤ 2 ^ 60 }
        ensures { scaled_radicand result ≡ 4 ^ count * scaled_radicand self }
    {
        let mut state = self;
        for _ in 0..count {
            state = state.next_digit();
        }
        state
    }
}

// The binary digits of a significand, and the leading one of a normal value's.
const SIGNIFICAND_DIGITS: u64 = 53;

const LEADING_BIT: u64 = 1 << (SIGNIFICAND_DIGITS - 1);

// One digit more decides how a root is rounded, with a sticky bit for those further down.
const ROOT_DIGITS: u64 = SIGNIFICAND_DIGITS + 1;

// A root has one digit for two of its radicand's. So with these zeros behind a word of 64 digits its root has
// the digits of a significand, or one more.
const SIGNIFICAND_ZEROS: u64 = 2 * SIGNIFICAND_DIGITS - 64;

const ROOT_ZEROS: u64 = 2 * ROOT_DIGITS - 64;

// The exponents of such roots beside `half`, the one where 2^-UNPACKED_SCALE is the unit and the other in the
// scale of a high word: the root of 2^NORMALISED_SCALE is taken off, and that of the zeros.
const SIGNIFICAND_PLACE: u64 = UNPACKED_SCALE - NORMALISED_SCALE / 2 - SIGNIFICAND_ZEROS / 2;

const ROOT_PLACE: u64 = HIGH_WORD_SCALE - NORMALISED_SCALE / 2 - ROOT_ZEROS / 2;

// The ROOT_DIGITS digits of the root of radicand * 2^ROOT_ZEROS, one by one.
fn root_digits(radicand: u64) -> SquareRoot
    requires { 2 ^ 62 ≤ radicand }
    ensures { result.significand * result.significand + result.remainder ≡ radicand * 2 ^ ROOT_ZEROS }
{
    let start = RootState {
        root: SquareRoot {
            significand: 0,
            remainder: 0,
        },
        radicand,
    };
    start.next_digits(ROOT_DIGITS).root
}

// The value significand * 4^half / 2^NORMALISED_SCALE, whose root is wanted. The last bits of its significand are 0, as
// a double has fewer digits than a word: so it is not so near to 2^64 that its root would be rounded up to one more.
#[derive(Clone, Copy)]
struct Radicand {
    significand: u64,
    half: u64,
    ghost top_bits: { 2 ^ 62 ≤ significand },
    ghost no_carry: { significand ≤ 2 ^ 64 - 2 ^ 11 },
    ghost half_in_range: { half ≤ 1050 },
}

impl Radicand {
    ghost use Rattle.root.specs.Radicand.{radicand_root};

    // A value above zero. Its significand is brought to its top bit, or to the one below where that makes the
    // exponent even, and the exponent is halved. There is no branch, as a processor could not foresee it: odd
    // exponents are as common as even ones.
    fn of(x: f64) -> Self
        requires { T (positive x) }
        ensures { radicand_root result ≡ square_root binary64 x }
    {
        let n = rounding::normalise_significand(rounding::unpack(x));
        let odd = n.exponent % 2;
        Self {
            significand: n.significand >> odd,
            half: n.exponent / 2 + odd,
        }
    }

    // Its root by digits, rounded (IEEE 754-2019, 4.3.1). They are brought to the top bit of a word, with the
    // sticky bit behind them: the digits further down are all 0 exactly where no remainder is left.
    fn root_by_digits(self) -> f64
        ensures { result ≡ radicand_root self }
    {
        let root = root_digits(self.significand);
        let zeros = root.significand.leading_zeros() as u64;
        rounding::round_and_pack_word(
            false,
            (root.significand << zeros) + root.sticky_bit(),
            self.half + ROOT_PLACE - zeros,
        )
    }

    // Whether a candidate is that root, exactly. Its exponent has to be the one that half tells, and its
    // significand the k with k - 1/2 < root < k + 1/2: squared, in whole numbers, of which none is the square
    // of k and a half.
    fn is_root(self, candidate: f64) -> bool
        ensures { IsTrue result ↔ (candidate ≡ radicand_root self) }
    {
        if candidate.is_nan() {
            return false;
        }
        let bits = candidate.to_bits();
        let significand = LEADING_BIT + bits % LEADING_BIT;
        if bits != (self.half + SIGNIFICAND_PLACE) * LEADING_BIT + significand {
            return false;
        }
        let number = words::multiply(self.significand, 1 << SIGNIFICAND_ZEROS);
        let square = words::multiply(significand, significand);
        let reach = TwoWords {
            hi: 0,
            lo: significand,
        };
        (square < number + reach) & !(square + reach < number)
    }
}

// Whether x is finite and above zero.
fn is_positive(x: f64) -> bool
    ensures { result ≡ positive x }
{
    rounding::is_finite(x) & (0.0 < x)
}

// The root of anything else: a zero is its own root, and so are +∞ and NaN; a number below zero has none.
fn special_root(x: f64) -> f64
    requires { positive x ≡ false }
    ensures { result ≡ square_root binary64 x }
{
    if x < 0.0 { 0.0 / 0.0 } else { x }
}

// The root of a value above zero. The library's root, the processor's instruction, is a candidate and no more:
// nothing rests on its contract, and digits are taken exactly where it is not the rounded root.
fn root_of_positive(x: f64) -> f64
    requires { T (positive x) }
    ensures { result ≡ square_root binary64 x }
{
    let radicand = Radicand::of(x);
    let candidate = x.sqrt();
    if radicand.is_root(candidate) {
        candidate
    } else {
        radicand.root_by_digits()
    }
}

// The square root, rounded to nearest, ties to even (IEEE 754-2019, 4.3.1).
pub fn sqrt(x: f64) -> f64
    ensures { result ≡ square_root binary64 x }
{
    if is_positive(x) {
        root_of_positive(x)
    } else {
        special_root(x)
    }
}

// The same, its digits taken one by one.
pub fn sqrt_by_digits(x: f64) -> f64
    ensures { result ≡ square_root binary64 x }
{
    if is_positive(x) {
        Radicand::of(x).root_by_digits()
    } else {
        special_root(x)
    }
}
