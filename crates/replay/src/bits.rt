// Floats by their bits. There is one not-a-number: every pattern that is one reads as it, and it is written as the one pattern.
// Each width has its own calls: no trait of the library has `from_bits`.

const SINGLE_SIGN: u32 = 0x8000_0000;

const SINGLE_INFINITY: u32 = 0x7f80_0000;

const SINGLE_NAN: u32 = 0x7fc0_0000;

const DOUBLE_SIGN: u64 = 0x8000_0000_0000_0000;

const DOUBLE_INFINITY: u64 = 0x7ff0_0000_0000_0000;

const DOUBLE_NAN: u64 = 0x7ff8_0000_0000_0000;

pub fn single(bits: u32) -> f32 {
    if bits % SINGLE_SIGN > SINGLE_INFINITY {
        f32::NAN
    } else {
        f32::from_bits(bits)
    }
}

pub fn double(bits: u64) -> f64 {
    if bits % DOUBLE_SIGN > DOUBLE_INFINITY {
        f64::NAN
    } else {
        f64::from_bits(bits)
    }
}

pub fn single_bits(number: f32) -> u32 {
    if number.is_nan() {
        SINGLE_NAN
    } else {
        number.to_bits()
    }
}

pub fn double_bits(number: f64) -> u64 {
    if number.is_nan() {
        DOUBLE_NAN
    } else {
        number.to_bits()
    }
}
