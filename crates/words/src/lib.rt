// Numbers of one and two 64-bit words: sum, difference, order, choice and product, right shifts that
// keep a sticky bit, and the left shift that brings a number to its top bit.
#![tactic(auto)]

ghost use Rattle.std.specs.Prelude.{◌≡◌, ◌+◌, ◌-◌, ◌*◌, ◌^◌, ◌<◌, ◌≤◌, if◌then◌else◌};
ghost use Rattle.words.specs.Value.{value};
ghost use Rattle.words.specs.Sticky.{StickyEquivalent};

use std::ops::{Add, Sub};

// The number hi * 2^64 + lo. The high word is first, so that the derived order is that of the numbers.
// Sums and differences take their carry and their borrow from the low word; a product is the language's of 128 bits, split in two.
#[derive(Clone, Copy, PartialEq, Eq, PartialOrd, Ord)]
pub struct TwoWords {
    pub hi: u64,
    pub lo: u64,
}

impl TwoWords {
    pub const ZERO: TwoWords = TwoWords { hi: 0, lo: 0 };
}

// x + y. The low sum wraps, and the carry is taken from it.
impl Add for TwoWords {
    type Output = TwoWords;

    ghost can_add = { λ x y. value x + value y < 2 ^ 128 };

    ghost add_gives = { λ x y sum. value sum ≡ value x + value y };

    fn add(self, other: TwoWords) -> TwoWords {
        let lo = self.lo.wrapping_add(other.lo);
        let carry = u64::from(lo < self.lo);
        TwoWords {
            hi: self.hi + other.hi + carry,
            lo,
        }
    }
}

// x - y. The low difference wraps, and the borrow is taken from it.
impl Sub for TwoWords {
    type Output = TwoWords;

    ghost can_sub = { λ x y. value y ≤ value x };

    ghost sub_gives = { λ x y difference. value difference ≡ value x - value y };

    fn sub(self, other: TwoWords) -> TwoWords {
        let lo = self.lo.wrapping_sub(other.lo);
        let borrow = u64::from(self.lo < lo);
        TwoWords {
            hi: self.hi - other.hi - borrow,
            lo,
        }
    }
}

// x where `first` holds, and else y, for two values that are both worked out: this leaves a
// processor no branch to foresee. A test and no closure, since no step is chosen.
pub fn choose<T: Copy>(first: bool, x: T, y: T) -> T
    ensures { result ≡ (if first then x else y) }
{
    if first { x } else { y }
}

// The exact product, the language's of 128 bits split in two. Its low word is the rest by 2^64, since a cast asks that the number fits.
pub fn multiply(a: u64, b: u64) -> TwoWords
    ensures { value result ≡ a * b }
{
    let product = u128::from(a) * u128::from(b);
    TwoWords {
        hi: (product >> 64) as u64,
        lo: (product % (1 << 64)) as u64,
    }
}

// n / 2^shift, its last bit set where a 1 was shifted out.
pub fn shift_right_sticky(n: u64, shift: u64) -> u64
    ensures { StickyEquivalent 2 (2 ^ shift) n result }
{
    if shift < 64 {
        let kept = n >> shift;
        if kept << shift == n {
            kept
        } else {
            kept / 2 * 2 + 1
        }
    } else {
        if n == 0 { 0 } else { 1 }
    }
}

// x / 2^64, likewise: the high word, its last bit set where the low word is not 0.
pub fn collapse_sticky(x: TwoWords) -> u64
    ensures { StickyEquivalent 2 (2 ^ 64) (value x) result }
{
    if x.lo == 0 { x.hi } else { x.hi / 2 * 2 + 1 }
}

// x / 2^shift for a shift of 1 to 63, likewise.
fn shift_words_right_sticky_short(x: TwoWords, shift: u64) -> TwoWords
    requires some { 0 < shift }
    requires within_a_word { shift < 64 }
    ensures { StickyEquivalent 2 (2 ^ shift) (value x) (value result) }
{
    let kept = x.lo >> shift;
    let lo = (x.hi << (64 - shift)) + kept;
    if kept << shift == x.lo {
        TwoWords {
            hi: x.hi >> shift,
            lo,
        }
    } else {
        TwoWords {
            hi: x.hi >> shift,
            lo: lo / 2 * 2 + 1,
        }
    }
}

// x / 2^shift, likewise.
pub fn shift_words_right_sticky(x: TwoWords, shift: u64) -> TwoWords
    ensures { StickyEquivalent 2 (2 ^ shift) (value x) (value result) }
{
    if shift == 0 {
        return x;
    }
    if shift < 64 {
        return shift_words_right_sticky_short(x, shift);
    }
    let word = collapse_sticky(x);
    TwoWords {
        hi: 0,
        lo: shift_right_sticky(word, shift - 64),
    }
}

// A number brought to its top bit, and the left shift that brought it there.
#[derive(Clone, Copy)]
pub struct Normalised {
    pub words: TwoWords,
    pub shift: u64,
}

// x * 2^shift, whose top bit is set. The shift is the count of leading zeros. What enters the high
// word goes right by 64 - zeros places in two steps, so that a count of 0 is no case of its own.
pub fn normalise_words(x: TwoWords) -> Normalised
    requires { 0 < value x }
    ensures { (value result.words ≡ value x * 2 ^ result.shift) × (2 ^ 63 ≤ result.words.hi) × (result.shift < 128) }
{
    if x.hi == 0 {
        let zeros = x.lo.leading_zeros() as u64;
        Normalised {
            words: TwoWords {
                hi: x.lo << zeros,
                lo: 0,
            },
            shift: zeros + 64,
        }
    } else {
        let zeros = x.hi.leading_zeros() as u64;
        Normalised {
            words: TwoWords {
                hi: (x.hi << zeros) + ((x.lo >> 1) >> (63 - zeros)),
                lo: x.lo << zeros,
            },
            shift: zeros,
        }
    }
}
