// The taps of an axis of ratios with their whole numerators: nothing apportioned, nothing rounded.
#![tactic(auto)]

ghost use Rattle.std.specs.Prelude.{◌≡◌, ℕ, ◌≤◌, ◌<◌, length, get_or, take, nat_abs};
ghost use Rattle.lists.specs.Tabulate.{tabulate};
ghost use Rattle.numerators.specs.Numerator.{numerator_of};
ghost use Rattle.kernels.specs.Kernel.{kernel_of, Limits};
ghost use Rattle.whole_taps.specs.Whole.{kernel_is, Whole};

use kernels::Kernel;

// Offsets 15 too large, numerators, and the divisor that all of them are over.
#[derive(Clone, Copy)]
pub struct Taps {
    pub offsets: [u8; 31],
    pub weights: [i32; 31],
    pub len: usize,
    pub divisor: u64,
}

// Taps of ratios: few, offsets within reach, a divisor of 16 bits, a gain of at most 4.
#[derive(Clone, Copy)]
pub struct WholeTaps {
    pub taps: Taps,
    ghost whole: { Whole taps },
}

// A numerator that is held 2^38 too large, as itself: it is brought to 2^18 too large first, which an i32 holds.
fn numerator(value: u64) -> i32
    requires { nat_abs (numerator_of value) ≤ 262140 }
    ensures { result ≡ numerator_of value }
{
    (value - 274877644800) as i32 - 262144
}

// The first n numerators.
fn numerators(values: &[u64], n: usize) -> [i32; 31]
    requires { (n ≤ 31) × (n ≤ length values.now) × ((i : ℕ) → i < n → nat_abs (numerator_of (get_or values.now i 0)) ≤ 262140) }
    ensures { (31 ≡ length result) × (take n result ≡ tabulate (λ i. numerator_of (get_or values.now i 0)) n) }
{
    let mut weights = [0i32; 31];
    for i in 0..n {
        weights[i] = numerator(values[i]);
    }
    weights
}

// A kernel's taps.
pub fn taps_of(k: Kernel) -> WholeTaps
    requires { Limits k.divisor k.offsets k.values k.len × (k.divisor ≤ 65535) }
    ensures { kernel_is result.taps ≡ kernel_of k.divisor k.offsets k.values k.len }
{
    let offsets = k.offsets;
    let weights = numerators(&k.values, k.len);
    let taps = Taps {
        offsets,
        weights,
        len: k.len,
        divisor: k.divisor,
    };
    WholeTaps { taps }
}
