// What stands in lent places before a call.
pub const F64_BEFORE: f64 = 1.5;

pub const F32_BEFORE: f32 = 1.5;

pub const U32_BEFORE: u32 = 0xdead_beef;

pub const U16_BEFORE: u16 = 0xbeef;

pub const U8_BEFORE: u8 = 0xbe;

// The factor and margin with which the Rust builds its grids.
pub const FACTOR: f64 = 1.2;

pub const MARGIN: u32 = 1;
