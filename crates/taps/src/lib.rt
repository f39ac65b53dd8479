// The taps of a stage of weights, from its array of offsets and its array of weights, as a kernel.
#![tactic(auto)]

ghost use Rattle.std.specs.Prelude.{◌≡◌, ℕ, ◌+◌, ◌*◌, ◌%◌, ◌^◌, ◌≤◌, ◌<◌, length, take, T, nat_abs};
ghost use Rattle.lists.specs.Tabulate.{tabulate};
ghost use Rattle.weights.specs.Bits.{accepted};
ghost use Rattle.weights.specs.Weight.{usable, numerator_of};
ghost use Rattle.recipe_bytes.specs.Bytes.{at, bits};
ghost use Rattle.axis_fields.specs.AxisFields.{weight_length};
ghost use Rattle.taps.specs.TapBytes.{numerator_at, kernel_at};
ghost use Rattle.taps.specs.Held.{held_offset, held_numerator, Tested, Holds};

use kernels::Kernel;
use weights::Weight;

// The weight at place k: a whole numerator, or the f32 of the tap whose offset stands at place o.
fn weight_at(part: &[u8], real: bool, o: usize, k: usize) -> Weight
    requires { (o < length part.now) × (k + weight_length real ≤ length part.now) × (T real → T (accepted (bits part.now k))) }
    ensures { T (usable result) × (numerator_of result ≡ numerator_at real part.now k) × (nat_abs (numerator_of result) ≤ 2 ^ 37) }
{
    if real {
        let tap = weights::real_tap(part[o], recipe_bytes::bits_at(part, k));
        Weight::Real(tap.weight)
    } else {
        Weight::Whole(recipe_bytes::ratio_at(part, k))
    }
}

// A numerator as it is held.
fn held(a: i64) -> u64
    requires { nat_abs a ≤ 2 ^ 37 }
    ensures { result ≡ held_numerator a }
{
    (a + 274877906944) as u64
}

// The numerator of the tap with its offset at place o and its weight at place k, as it is held.
fn value_at(part: &[u8], real: bool, o: usize, k: usize) -> u64
    requires { (o < length part.now) × (k + weight_length real ≤ length part.now) × (T real → T (accepted (bits part.now k))) }
    ensures { result ≡ held_numerator (numerator_at real part.now k) }
{
    held(weights::numerator(weight_at(part, real, o, k)))
}

// n offsets from place o on, as they are held.
fn offsets_from(part: &[u8], n: usize, o: usize) -> [u8; 31]
    requires { (n ≤ 31) × (o + n ≤ length part.now) × ((i : ℕ) → i < n → (113 ≤ (at part.now (o + i) + 128) % 256) × ((at part.now (o + i) + 128) % 256 ≤ 143)) }
    ensures { (31 ≡ length result) × (take n result ≡ tabulate (λ i. held_offset (at part.now (o + i))) n) }
{
    let mut held = [0u8; 31];
    for i in 0..n {
        held[i] = (recipe_bytes::raised_offset(part[o + i]) - 113) as u8;
    }
    held
}

// n numerators, with offsets from place o on and weights from place w on, as they are held.
fn values_from(part: &[u8], real: bool, n: usize, o: usize, w: usize) -> [u64; 31]
    requires { Tested real part.now n o w }
    ensures { (31 ≡ length result) × (take n result ≡ tabulate (λ i. held_numerator (numerator_at real part.now (w + weight_length real * i))) n) }
{
    let step = axis_fields::weight_length(real);
    let mut values = [0u64; 31];
    for i in 0..n {
        values[i] = value_at(part, real, o + i, w + step * i);
    }
    values
}

// The kernel of n taps over a divisor.
pub fn kernel_from(part: &[u8], real: bool, n: usize, o: usize, w: usize, divisor: u64) -> Kernel
    requires { Tested real part.now n o w }
    ensures { (result.len ≡ n) × (result.divisor ≡ divisor) × Holds result.offsets result.values n divisor (kernel_at real divisor part.now n o w) }
{
    let offsets = offsets_from(part, n, o);
    let values = values_from(part, real, n, o, w);
    Kernel {
        offsets,
        values,
        len: n,
        divisor,
    }
}
