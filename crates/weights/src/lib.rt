// A weight as a value: a whole numerator, or a real number as it arrived.
#![tactic(auto)]

ghost use Rattle.std.specs.Prelude.{◌≡◌, T};
ghost use Rattle.std.specs.Float.{binary32};
ghost use Rattle.std.specs.Float.Ieee.{of_bits};
ghost use Rattle.weights.specs.Bits.{pattern, accepted};
ghost use Rattle.weights.specs.Weight.{usable, numerator_of, in_range};

#[derive(Clone, Copy)]
pub enum Weight {
    Whole(i64),
    Real(f32),
}

// A tap of reals: its offset's byte, from a recipe's array of offsets, and its weight, from the array of weights.
#[derive(Clone, Copy)]
pub struct RealTap {
    pub offset: u8,
    pub weight: f32,
}

// The bit pattern of four bytes, the highest first.
pub fn real_bits(b0: u8, b1: u8, b2: u8, b3: u8) -> u32
    ensures { result ≡ pattern b0 b1 b2 b3 }
{
    u32::from_be_bytes([b0, b1, b2, b3])
}

// The range test, in f32: 0 of either sign, or a size from 2^-12 to 4.
#[tactic(auto, unfolding(crate::specs::Weight::in_range))]
fn in_range(x: f32) -> bool
    ensures { result ≡ in_range x }
{
    if x == 0.0 {
        true
    } else if x >= 0.000244140625 {
        x <= 4.0
    } else {
        x <= -0.000244140625 && x >= -4.0
    }
}

// Whether a pattern is a weight that a recipe may have. A NaN's is refused before it is made a float.
pub fn is_real_weight(bits: u32) -> bool
    ensures { result ≡ accepted bits }
{
    bits % 2147483648 <= 2139095040 && in_range(f32::from_bits(bits))
}

pub fn real_tap(offset: u8, bits: u32) -> RealTap
    requires { T (accepted bits) }
    ensures { result ≡ record { offset = offset; weight = of_bits binary32 bits } }
{
    let weight = f32::from_bits(bits);
    RealTap { offset, weight }
}

// Either kind of weight as a numerator: a real over 2^35. The product needs no rounding, and `as` is defined only where the very same number comes out: not of -0.0.
pub fn numerator(w: Weight) -> i64
    requires { T (usable w) }
    ensures { result ≡ numerator_of w }
{
    match w {
        Weight::Whole(a) => a,
        Weight::Real(x) => {
            if x == 0.0 {
                0
            } else {
                (x as f64 * 34359738368.0) as i64
            }
        }
    }
}
