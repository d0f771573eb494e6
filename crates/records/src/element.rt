// What a list of a record may have as its elements.
ghost use Rattle.std.specs.Prelude.{true, false, cond, eqb, ℕ, ◌≡◌, ◌≤◌, ◌<◌, ◌^◌, refl};
ghost use Rattle.std.specs.Float.{binary64};
ghost use Rattle.std.specs.Float.Ieee.{of_bits};
ghost use Rattle.binary64.specs.Laws.{IsDouble};
ghost use Rattle.records.specs.Lists.{pattern};
ghost use Rattle.std.proofs.Common.{lit≤};
ghost use Rattle.std.proofs.Math.Nat.{le-pred_of_lt};
ghost use lib.Ieee.Bits.{of_bits-to_bits, to_bits-lt};

use crate::word::NAN;

// A type whose every value is a word of a record.
pub trait Element: Copy {
    // The bytes that an element has in a hash.
    ghost BYTES: { ℕ };

    // The greatest word that may be an element.
    ghost MOST: { ℕ };

    ghost word_of: { Self → ℕ };

    ghost of_word: { ℕ → Self };

    // The type has this value.
    ghost is_value: { Self → Type 0 };

    const BYTES: u32;

    const MOST: u64;

    fn word(self) -> u64
        ensures { result ≡ word_of self };

    fn from_word(word: u64) -> Self
        requires { word ≤ MOST }
        ensures { result ≡ of_word word };

    // No word of a value is too great, and a value comes back from its word.
    ghost fits: { (x : Self) → is_value x → word_of x ≤ MOST };

    ghost comes_back: { (x : Self) → is_value x → of_word (word_of x) ≡ x };
}

// 0 or 1.
impl Element for bool {
    ghost BYTES = { 1 };

    ghost MOST = { 1 };

    ghost word_of = { λ x. cond x 1 0 };

    ghost of_word = { λ word. eqb word 1 };

    ghost is_value = { λ x. Unit {0} };

    ghost fits = { elim [ true ↦ λ h. lit≤ tt | false ↦ λ h. lit≤ tt ] };

    ghost comes_back = { elim [ true ↦ λ h. refl | false ↦ λ h. refl ] };

    const BYTES: u32 = 1;

    const MOST: u64 = 1;

    fn word(self) -> u64 {
        u64::from(self)
    }

    fn from_word(word: u64) -> bool {
        word == 1
    }
}

// One block a width, written out: a macro writes no ghost member.
impl Element for u8 {
    ghost BYTES = { 1 };

    ghost MOST = { 0xff };

    ghost word_of = { λ x. x };

    ghost of_word = { λ word. word };

    ghost is_value = { λ x. x < 2 ^ 8 };

    ghost fits = { λ x h. le-pred_of_lt h };

    ghost comes_back = { λ x h. refl };

    const BYTES: u32 = u8::BITS / 8;

    const MOST: u64 = u8::MAX as u64;

    fn word(self) -> u64 {
        u64::from(self)
    }

    fn from_word(word: u64) -> u8 {
        word as u8
    }
}

impl Element for u16 {
    ghost BYTES = { 2 };

    ghost MOST = { 0xffff };

    ghost word_of = { λ x. x };

    ghost of_word = { λ word. word };

    ghost is_value = { λ x. x < 2 ^ 16 };

    ghost fits = { λ x h. le-pred_of_lt h };

    ghost comes_back = { λ x h. refl };

    const BYTES: u32 = u16::BITS / 8;

    const MOST: u64 = u16::MAX as u64;

    fn word(self) -> u64 {
        u64::from(self)
    }

    fn from_word(word: u64) -> u16 {
        word as u16
    }
}

impl Element for u32 {
    ghost BYTES = { 4 };

    ghost MOST = { 0xffff_ffff };

    ghost word_of = { λ x. x };

    ghost of_word = { λ word. word };

    ghost is_value = { λ x. x < 2 ^ 32 };

    ghost fits = { λ x h. le-pred_of_lt h };

    ghost comes_back = { λ x h. refl };

    const BYTES: u32 = u32::BITS / 8;

    const MOST: u64 = u32::MAX as u64;

    fn word(self) -> u64 {
        u64::from(self)
    }

    fn from_word(word: u64) -> u32 {
        word as u32
    }
}

impl Element for u64 {
    ghost BYTES = { 8 };

    ghost MOST = { 0xffff_ffff_ffff_ffff };

    ghost word_of = { λ x. x };

    ghost of_word = { λ word. word };

    ghost is_value = { λ x. x < 2 ^ 64 };

    ghost fits = { λ x h. le-pred_of_lt h };

    ghost comes_back = { λ x h. refl };

    const BYTES: u32 = u64::BITS / 8;

    const MOST: u64 = u64::MAX;

    fn word(self) -> u64 {
        self
    }

    fn from_word(word: u64) -> u64 {
        word
    }
}

impl Element for f64 {
    ghost BYTES = { 8 };

    ghost MOST = { 0xffff_ffff_ffff_ffff };

    ghost word_of = { pattern };

    ghost of_word = { of_bits binary64 };

    ghost is_value = { IsDouble };

    ghost fits = { λ x h. le-pred_of_lt (to_bits-lt binary64 x h) };

    ghost comes_back = { of_bits-to_bits binary64 };

    const BYTES: u32 = 8;

    const MOST: u64 = 0xffff_ffff_ffff_ffff;

    // The double's bit pattern.
    fn word(self) -> u64 {
        if self.is_nan() {
            return NAN;
        }
        self.to_bits()
    }

    // The double of a bit pattern: above an infinity's, the sign left out, stand a NaN's.
    fn from_word(word: u64) -> f64 {
        if word % 0x8000_0000_0000_0000 > 0x7ff0_0000_0000_0000 {
            return f64::NAN;
        }
        f64::from_bits(word)
    }
}
