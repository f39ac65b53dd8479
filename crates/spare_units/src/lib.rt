// Spare units: the remainders of an axis's taps, how many units they leave over, and which taps get one.
#![tactic(auto)]

ghost use Rattle.std.specs.Prelude.{◌≡◌, cond, ℕ, ◌+◌, ◌*◌, ◌/◌, ◌^◌, ◌≤◌, ◌<◌, length, get_or, take, nat_abs, ltb};
ghost use Rattle.integers.specs.Sum.{sum};
ghost use Rattle.lists.specs.Tabulate.{tabulate};
ghost use Rattle.lists.specs.Count.{count};
ghost use Rattle.numerators.specs.Numerator.{numerator_of, remainder_of};
ghost use Rattle.unit_order.specs.Order.{before};

// The remainders of an axis's taps, and how many are not 0: so many taps are rounded.
#[derive(Clone, Copy)]
pub struct Leftovers {
    pub rest: [u64; 31],
    pub rounded: usize,
}

// What dividing the first n taps leaves over.
pub fn remainders(values: &[u64], n: usize, divisor: u64) -> Leftovers
    requires { (n ≤ 31) × (n ≤ length values.now) × (0 < divisor) × (divisor ≤ 2 ^ 35) × ((i : ℕ) → i < n → nat_abs (numerator_of (get_or values.now i 0)) ≤ 4 * divisor) }
    ensures { (31 ≡ length result.rest) × (take n result.rest ≡ tabulate (λ i. remainder_of (get_or values.now i 0) divisor) n) × (result.rounded ≡ count (ltb 0) (tabulate (λ i. remainder_of (get_or values.now i 0) divisor) n)) }
{
    let mut rest = [0u64; 31];
    let mut rounded = 0;
    for i in 0..n {
        let left = numerators::raised(values[i], divisor) % divisor;
        rest[i] = left;
        rounded += usize::from(0 < left);
    }
    Leftovers { rest, rounded }
}

fn sum_of(rest: &[u64], n: usize, divisor: u64) -> u64
    requires { (n ≤ 31) × (n ≤ length rest.now) × (divisor ≤ 2 ^ 35) × ((i : ℕ) → i < n → get_or rest.now i 0 < divisor) }
    ensures { result ≡ sum (tabulate (λ i. get_or rest.now i 0) n) }
{
    let mut sum = 0;
    for i in 0..n {
        sum += rest[i];
    }
    sum
}

// The units that rounding down leaves over.
pub fn lacking_units(rest: &[u64], n: usize, divisor: u64) -> u64
    requires { (n ≤ 31) × (n ≤ length rest.now) × (0 < divisor) × (divisor ≤ 2 ^ 35) × ((i : ℕ) → i < n → get_or rest.now i 0 < divisor) }
    ensures { result ≡ (2 * sum (tabulate (λ i. get_or rest.now i 0) n) + divisor) / (2 * divisor) }
{
    (2 * sum_of(rest, n, divisor) + divisor) / (2 * divisor)
}

// How many of the first n taps come before tap i.
fn ahead(rest: &[u64], offsets: &[u8], n: usize, i: usize) -> usize
    requires { (n ≤ 31) × (i < n) × (n ≤ length rest.now) × (n ≤ length offsets.now) }
    ensures { result ≡ count (λ j. before (get_or rest.now j 0) (get_or offsets.now j 0) (get_or rest.now i 0) (get_or offsets.now i 0)) (tabulate (λ j. j) n) }
{
    let mut found = 0;
    for j in 0..n {
        found += usize::from(unit_order::comes_before(rest, offsets, j, i));
    }
    found
}

// 1 for a tap that gets a spare unit, 0 for another.
pub fn unit_of(rest: &[u64], offsets: &[u8], n: usize, i: usize, lacking: u64) -> u64
    requires { (n ≤ 31) × (i < n) × (n ≤ length rest.now) × (n ≤ length offsets.now) }
    ensures { (result ≤ 1) × (result ≡ cond (ltb (count (λ j. before (get_or rest.now j 0) (get_or offsets.now j 0) (get_or rest.now i 0) (get_or offsets.now i 0)) (tabulate (λ j. j) n)) lacking) 1 0) }
{
    u64::from((ahead(rest, offsets, n, i) as u64) < lacking)
}
