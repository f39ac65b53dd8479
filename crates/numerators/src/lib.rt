// Numerators along an axis, held 2^38 too large: their sum of magnitudes, the gain, and what is divided for a share.
#![tactic(auto)]

ghost use Rattle.std.specs.Prelude.{◌≡◌, ℕ, ◌+◌, ◌*◌, ◌^◌, ◌≤◌, ◌<◌, length, get_or, pos, nat_abs, ◌+ℤ◌, ◌*ℤ◌};
ghost use Rattle.integers.specs.Divide.{ceil_div};
ghost use Rattle.integers.specs.Sum.{sum};
ghost use Rattle.lists.specs.Tabulate.{tabulate};
ghost use Rattle.numerators.specs.Numerator.{numerator_of};

// The magnitude of one numerator.
fn magnitude_of(value: u64) -> u64
    ensures { result ≡ nat_abs (numerator_of value) }
{
    value.abs_diff(274877906944)
}

// The sum of the magnitudes of the first n numerators.
pub fn magnitude(values: &[u64], n: usize) -> u64
    requires { (n ≤ 31) × (n ≤ length values.now) × ((i : ℕ) → i < n → get_or values.now i 0 ≤ 2 ^ 39) }
    ensures { result ≡ sum (tabulate (λ i. nat_abs (numerator_of (get_or values.now i 0))) n) }
{
    let mut sum = 0;
    for i in 0..n {
        sum += magnitude_of(values[i]);
    }
    sum
}

// 65,536 times a numerator, and 2^18 times the divisor more: at least 0 where the gain is at most 4.
pub fn raised(value: u64, divisor: u64) -> u64
    requires { (divisor ≤ 2 ^ 35) × (nat_abs (numerator_of value) ≤ 4 * divisor) }
    ensures { pos result ≡ pos 65536 *ℤ numerator_of value +ℤ pos (262144 * divisor) }
{
    262144 * divisor + 65536 * value - 18014398509481984
}

// 65,536 times a gain, rounded up.
pub fn scaled_gain(magnitude: u64, divisor: u64) -> u64
    requires { (0 < divisor) × (divisor ≤ 2 ^ 35) × (magnitude ≤ 4 * divisor) }
    ensures { result ≡ ceil_div (65536 * magnitude) divisor }
{
    (65536 * magnitude + (divisor - 1)) / divisor
}
