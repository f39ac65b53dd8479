// Kinds 1 and 2, after the header bytes: a stage's two kernels, their gains, and all its tests.
#![tactic(auto)]

ghost use Rattle.std.specs.Prelude.{◌≡◌, not, ◌+◌, ◌≤◌, length, T};
ghost use Rattle.refusals.specs.Refusal.{verdict};
ghost use Rattle.axis_fields.specs.AxisFields.{divisor_at};
ghost use Rattle.tap_fields.specs.TapFields.{tap_tests};
ghost use Rattle.taps.specs.Held.{Holds};
ghost use Rattle.gain_tests.specs.Kept.{Kept};
ghost use Rattle.recipe_kernels.specs.Kernels.{taps_before, kernel_on, gain_tests, weighted_tests, weighted_length};

use kernels::Kernel;
use refusals::Refusal;

// The divisor of an axis: two bytes from place k on, or that of reals.
#[tactic(auto, unfolding(axis_fields::specs::AxisFields::divisor_at))]
fn divisor(part: &[u8], real: bool, k: usize) -> u64
    requires { T (not real) → k + 2 ≤ length part.now }
    ensures { result ≡ divisor_at real k part.now }
{
    if real {
        34359738368
    } else {
        recipe_bytes::word_at(part, k) as u64
    }
}

// How many taps come before those of an axis, 0 across and 1 down.
#[tactic(auto, unfolding(crate::specs::Kernels::taps_before))]
fn taps_before(part: &[u8], axis: usize) -> usize
    requires { 1 ≤ length part.now }
    ensures { (result ≡ taps_before axis part.now) × (result ≤ 255) }
{
    if axis == 0 { 0 } else { usize::from(part[0]) }
}

// The kernel of an axis, 0 across and 1 down.
#[inline(never)]
pub fn kernel_on(part: &[u8], real: bool, axis: usize) -> Kernel
    requires { (axis ≤ 1) × (verdict (tap_tests real part.now) ≡ Ok tt) }
    ensures { Holds result.offsets result.values result.len result.divisor (kernel_on real axis part.now) × Kept result.values result.len result.divisor }
{
    let before = taps_before(part, axis);
    let o = axis_fields::sizes_length(real);
    let all = usize::from(part[0]) + usize::from(part[1]);
    let w = o + all + axis_fields::weight_length(real) * before;
    let d = divisor(part, real, 2 + 2 * axis);
    let n = usize::from(part[axis]);
    taps::kernel_from(part, real, n, o + before, w, d)
}

// How many bytes a stage of weights has after its header bytes.
pub fn length(part: &[u8], real: bool) -> usize
    requires { verdict (tap_tests real part.now) ≡ Ok tt }
    ensures { (result ≡ weighted_length real part.now) × (result ≤ length part.now) × (result ≤ 8192) }
{
    let taps = usize::from(part[0]) + usize::from(part[1]);
    axis_fields::sizes_length(real) + taps + axis_fields::weight_length(real) * taps
}

// The gains of both axes, after fields that pass.
fn gains(part: &[u8], real: bool) -> Result<(), Refusal>
    requires { verdict (tap_tests real part.now) ≡ Ok tt }
    ensures { result ≡ verdict (gain_tests real part.now) }
{
    gain_tests::gain(kernel_on(part, real, 0))?;
    gain_tests::gain(kernel_on(part, real, 1))
}

// All tests of a stage of weights.
pub fn tests(part: &[u8], real: bool) -> Result<(), Refusal>
    ensures { result ≡ verdict (weighted_tests real part.now) }
{
    tap_fields::fields(part, real)?;
    gains(part, real)
}
