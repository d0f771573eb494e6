// A double converted to binary32 (IEEE 754-2019, 5.4.2, convertFormat).
#![tactic(auto)]

ghost use Rattle.std.specs.Prelude.{◌≡◌};
ghost use Rattle.std.specs.Float.{binary32};
ghost use Rattle.binary32.specs.Convert.{convert_format};

pub mod laws;

// A double rounded once to binary32, to nearest, ties to even (IEEE 754-2019, 4.3.1). The sign of a zero stays, an infinity stays, and a NaN gives a NaN.
// The library's function and not `as`, which is refused where it loses something.
#[tactic(auto, using(crate::proofs::Convert::convert_is_library))]
pub fn to_f32(x: f64) -> f32
    ensures { result ≡ convert_format binary32 x }
{
    std::num::nearest_f64_to_f32_with_nan(x)
}
