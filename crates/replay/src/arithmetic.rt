// Arithmetic on doubles.
use records::{Element, Fault, Reader};
use std::cmp::Ordering;

// a, b, c; a * b + c.
pub fn replay_mul_add(reader: &mut Reader) -> Result<(), Fault> {
    let a = reader.take()?;
    let b = reader.take()?;
    let c = reader.take()?;
    reader.expect(c_api::arithmetic::koshirga_mul_add(a, b, c))
}

// x; its root, which both calls give.
pub fn replay_sqrt(reader: &mut Reader) -> Result<(), Fault> {
    let x = reader.take()?;
    let root = c_api::arithmetic::koshirga_sqrt(x);
    let by_digits = c_api::arithmetic::koshirga_sqrt_by_digits(x);
    if by_digits.word() != root.word() {
        return Err(Fault::Different);
    }
    reader.expect(root)
}

// x; its floor, its ceiling, x as a signed 64-bit number in two's complement, and what became of it there.
pub fn replay_integral(reader: &mut Reader) -> Result<(), Fault> {
    let x = reader.take()?;
    reader.expect(c_api::arithmetic::koshirga_floor(x))?;
    reader.expect(c_api::arithmetic::koshirga_ceil(x))?;
    let converted = c_api::arithmetic::koshirga_to_i64(x);
    reader.expect(converted.whole.cast_unsigned())?;
    reader.expect(converted.how)
}

// Two bit patterns; 0 where the first is below the second in the total order, 1 where they are the same, 2 where it is above: the file's
// own numbers.
pub fn replay_total_order(reader: &mut Reader) -> Result<(), Fault> {
    let x = reader.take()?;
    let y = reader.take()?;
    let order = c_api::arithmetic::koshirga_total_cmp(x, y);
    let code: u32 = match order.cmp(&0) {
        Ordering::Less => 0,
        Ordering::Equal => 1,
        Ordering::Greater => 2,
    };
    reader.expect(code)
}

// Two numbers; the lesser of them, minimumNumber (IEEE 754-2019, 9.6).
pub fn replay_minimum_number(reader: &mut Reader) -> Result<(), Fault> {
    let x = reader.take()?;
    let y = reader.take()?;
    reader.expect(c_api::arithmetic::koshirga_minimum_number(x, y))
}

// x; the binary32 that it is converted to: its bit pattern, or that it is a NaN.
pub fn replay_to_f32(reader: &mut Reader) -> Result<(), Fault> {
    let x = reader.take()?;
    let converted = c_api::arithmetic::koshirga_to_f32(x);
    if converted.is_nan() {
        return reader.expect(f64::NAN);
    }
    reader.expect(converted.to_bits())
}
