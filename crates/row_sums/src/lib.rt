// Sums along a row: begun at a value, a tap's products added, and ended in 64ths.
#![tactic(auto)]

ghost use Rattle.std.specs.Prelude.{◌≡◌, ◌++◌, ℕ, ℤ, ◌^◌, ◌≤◌, ◌<◌, length, get_or, drop, pos, nat_abs, ◌+ℤ◌, ◌*ℤ◌};
ghost use Rattle.integers.specs.Divide.{floor_div};
ghost use Rattle.lists.specs.Tabulate.{tabulate};

// A sum of weighted samples of type S. It takes a sample where both leave room, and `none` and `blank` stand for what a list doesn't hold.
pub trait Tally<S> {
    ghost takes: { Self → S → Type 0 };

    ghost added: { Self → ℤ → S → Self };

    ghost none: { Self };

    ghost blank: { S };

    // A sum and one tap's product more.
    fn plus(self, weight: i32, sample: S) -> Self
        requires { (nat_abs weight ≤ 262175) × takes self sample }
        ensures { result ≡ added self weight sample };
}

// Samples of a plane, on 32 bits.
impl Tally<u8> for i32 {
    ghost takes = { λ sum sample. nat_abs sum ≤ 100000000 };

    ghost added = { λ sum weight sample. sum +ℤ weight *ℤ pos sample };

    ghost none = { pos 0 };

    ghost blank = { 0 };

    fn plus(self, weight: i32, sample: u8) -> i32 {
        self + weight * i32::from(sample)
    }
}

// Sums of before, on 64 bits.
impl Tally<i32> for i64 {
    ghost takes = { λ sum before. (nat_abs sum ≤ 2 ^ 60) × (nat_abs before ≤ 2 ^ 27) };

    ghost added = { λ sum weight before. sum +ℤ weight *ℤ before };

    ghost none = { pos 0 };

    ghost blank = { pos 0 };

    fn plus(self, weight: i32, before: i32) -> i64 {
        self + i64::from(weight) * i64::from(before)
    }
}

// The first n sums begin at a value: the half that rounds them, or 0.
pub fn start_at<T: Copy>(sums: &mut [T], n: usize, value: T)
    requires { n ≤ length sums.old }
    ensures { sums.new ≡ tabulate (λ _. value) n ++ drop n sums.old }
{
    for u in 0..n {
        sums[u] = value;
    }
}

// One tap's products along a row.
pub fn add_tap<T: Tally<S> + Copy, S: Copy>(sums: &mut [T], n: usize, row: &[S], weight: i32)
    requires { (n ≤ length sums.old) × (n ≤ length row.now) × (nat_abs weight ≤ 262175) × ((u : ℕ) → u < n → T.takes (get_or sums.old u T.none) (get_or row.now u T.blank)) }
    ensures { sums.new ≡ tabulate (λ u. T.added (get_or sums.old u T.none) weight (get_or row.now u T.blank)) n ++ drop n sums.old }
{
    for u in 0..n {
        sums[u] = sums[u].plus(weight, row[u]);
    }
}

// The half that rounds a sum to 64ths.
pub const HALF: i32 = 512;

// A sum in 64ths, rounded down: its half is in it.
fn in_64ths(sum: i32) -> i32
    ensures { result ≡ floor_div sum 1024 }
{
    sum >> 10
}

// The first n sums in 64ths.
pub fn finish(sums: &mut [i32], n: usize)
    requires { n ≤ length sums.old }
    ensures { sums.new ≡ tabulate (λ u. floor_div (get_or sums.old u (pos 0)) 1024) n ++ drop n sums.old }
{
    for u in 0..n {
        sums[u] = in_64ths(sums[u]);
    }
}
