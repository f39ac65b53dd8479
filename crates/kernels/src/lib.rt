// Kernels along one axis: numerators over a divisor, made into the weights in 65,536ths that a stage uses.
#![tactic(auto)]

ghost use Rattle.std.specs.Prelude.{◌≡◌, map, ◌*◌, ◌^◌, ◌≤◌, ◌<◌, length, take, pos, nat_abs, ◌+ℤ◌, ◌*ℤ◌};
ghost use Rattle.integers.specs.Divide.{floor_div};
ghost use Rattle.model.specs.Apportion.{rounded_taps, apportion};
ghost use Rattle.numerators.specs.Numerator.{numerator_of};
ghost use Rattle.stage_values.specs.Ready.{Ready};
ghost use Rattle.kernels.specs.Kernel.{kernel_of, Limits};

use stage_values::Axis;

// A numerator in 65,536ths, rounded down, and a spare unit or none.
fn share(value: u64, divisor: u64, unit: u64) -> i32
    requires { (0 < divisor) × (divisor ≤ 2 ^ 35) × (nat_abs (numerator_of value) ≤ 4 * divisor) × (unit ≤ 1) }
    ensures { result ≡ floor_div (pos 65536 *ℤ numerator_of value) divisor +ℤ pos unit }
{
    let high = numerators::raised(value, divisor) / divisor + unit;
    high as i32 - 262144
}

// Weights in 65,536ths, and how many of their taps are rounded.
#[derive(Clone, Copy)]
struct Apportioned {
    weights: [i32; 31],
    rounded: usize,
}

// The first n taps, apportioned.
fn shares(values: &[u64], offsets: &[u8], n: usize, divisor: u64) -> Apportioned
    requires { Limits divisor offsets.now values.now n }
    ensures { (31 ≡ length result.weights) × (take n result.weights ≡ map (λ t. t.weight) (apportion (kernel_of divisor offsets.now values.now n))) × (result.rounded ≡ rounded_taps (kernel_of divisor offsets.now values.now n)) }
{
    let left = spare_units::remainders(values, n, divisor);
    let lacking = spare_units::lacking_units(&left.rest, n, divisor);
    let mut weights = [0i32; 31];
    for i in 0..n {
        weights[i] = share(
            values[i],
            divisor,
            spare_units::unit_of(&left.rest, offsets, n, i, lacking),
        );
    }
    Apportioned {
        weights,
        rounded: left.rounded,
    }
}

// A kernel as it was read: offsets 15 too large, numerators 2^38 too large.
#[derive(Clone, Copy)]
pub struct Kernel {
    pub offsets: [u8; 31],
    pub values: [u64; 31],
    pub len: usize,
    pub divisor: u64,
}

pub fn axis_of(k: Kernel) -> Axis
    requires { Limits k.divisor k.offsets k.values k.len }
    ensures { Ready (kernel_of k.divisor k.offsets k.values k.len) result }
{
    let shared = shares(&k.values, &k.offsets, k.len, k.divisor);
    let gain = numerators::scaled_gain(numerators::magnitude(&k.values, k.len), k.divisor);
    let offsets = k.offsets;
    let weights = shared.weights;
    Axis {
        offsets,
        weights,
        len: k.len,
        rounded: shared.rounded,
        gain,
    }
}
