// The kernels of the binomial kind.
#![tactic(auto)]

ghost use Rattle.std.specs.Prelude.{◌≡◌, ◌+◌, ◌-◌, ◌*◌, ◌^◌, ◌≤◌, length, take};
ghost use Rattle.lists.specs.Tabulate.{tabulate};
ghost use Rattle.model.specs.Binomial.{choose, binomial};
ghost use Rattle.kernels.specs.Kernel.{kernel_of, Limits};

use kernels::Kernel;

// C(2r, k) is entry r * r + k, for r of at most 15: the rows before it have 1 + 3 + .. + (2r - 1) entries.
const COEFFICIENTS: [u32; 256] = [
    1, 1, 2, 1, 1, 4, 6, 4, 1, 1, 6, 15, 20, 15, 6, 1, 1, 8, 28, 56, 70, 56, 28, 8, 1, 1, 10, 45,
    120, 210, 252, 210, 120, 45, 10, 1, 1, 12, 66, 220, 495, 792, 924, 792, 495, 220, 66, 12, 1, 1,
    14, 91, 364, 1001, 2002, 3003, 3432, 3003, 2002, 1001, 364, 91, 14, 1, 1, 16, 120, 560, 1820,
    4368, 8008, 11440, 12870, 11440, 8008, 4368, 1820, 560, 120, 16, 1, 1, 18, 153, 816, 3060,
    8568, 18564, 31824, 43758, 48620, 43758, 31824, 18564, 8568, 3060, 816, 153, 18, 1, 1, 20, 190,
    1140, 4845, 15504, 38760, 77520, 125970, 167960, 184756, 167960, 125970, 77520, 38760, 15504,
    4845, 1140, 190, 20, 1, 1, 22, 231, 1540, 7315, 26334, 74613, 170544, 319770, 497420, 646646,
    705432, 646646, 497420, 319770, 170544, 74613, 26334, 7315, 1540, 231, 22, 1, 1, 24, 276, 2024,
    10626, 42504, 134596, 346104, 735471, 1307504, 1961256, 2496144, 2704156, 2496144, 1961256,
    1307504, 735471, 346104, 134596, 42504, 10626, 2024, 276, 24, 1, 1, 26, 325, 2600, 14950,
    65780, 230230, 657800, 1562275, 3124550, 5311735, 7726160, 9657700, 10400600, 9657700, 7726160,
    5311735, 3124550, 1562275, 657800, 230230, 65780, 14950, 2600, 325, 26, 1, 1, 28, 378, 3276,
    20475, 98280, 376740, 1184040, 3108105, 6906900, 13123110, 21474180, 30421755, 37442160,
    40116600, 37442160, 30421755, 21474180, 13123110, 6906900, 3108105, 1184040, 376740, 98280,
    20475, 3276, 378, 28, 1, 1, 30, 435, 4060, 27405, 142506, 593775, 2035800, 5852925, 14307150,
    30045015, 54627300, 86493225, 119759850, 145422675, 155117520, 145422675, 119759850, 86493225,
    54627300, 30045015, 14307150, 5852925, 2035800, 593775, 142506, 27405, 4060, 435, 30, 1,
];

// C(2r, k).
fn coefficient(r: usize, k: usize) -> u32
    requires { (r ≤ 15) × (k ≤ 2 * r) }
    ensures { (result ≡ choose (2 * r) k) × (result ≤ 2 ^ 30) }
{
    COEFFICIENTS[r * r + k]
}

// The offsets k - r, held 15 too large.
fn offsets(r: usize) -> [u8; 31]
    requires { r ≤ 15 }
    ensures { (31 ≡ length result) × (take (2 * r + 1) result ≡ tabulate (λ k. 15 + k - r) (2 * r + 1)) }
{
    let mut held = [0u8; 31];
    for k in 0..2 * r + 1 {
        held[k] = (15 + k - r) as u8;
    }
    held
}

// The coefficients, held 2^38 too large.
fn numerators(r: usize) -> [u64; 31]
    requires { r ≤ 15 }
    ensures { (31 ≡ length result) × (take (2 * r + 1) result ≡ tabulate (λ k. 2 ^ 38 + choose (2 * r) k) (2 * r + 1)) }
{
    let mut held = [0u64; 31];
    for k in 0..2 * r + 1 {
        held[k] = 274877906944 + u64::from(coefficient(r, k));
    }
    held
}

// C(2r, k) over 4^r at offset k - r.
#[inline(never)]
pub fn binomial_kernel(r: usize) -> Kernel
    requires { r ≤ 15 }
    ensures { (result.len ≡ 2 * r + 1) × (kernel_of result.divisor result.offsets result.values result.len ≡ binomial r) × Limits result.divisor result.offsets result.values result.len }
{
    Kernel {
        offsets: offsets(r),
        values: numerators(r),
        len: 2 * r + 1,
        divisor: 1u64 << (2 * r),
    }
}
