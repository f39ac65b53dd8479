// A row of means over windows, from the corners of a summed-area table: the time per sample does not depend on the radii.
#![tactic(auto)]

ghost use Rattle.std.specs.Prelude.{◌≡◌, ℕ, ◌+◌, ◌-◌, ◌*◌, ◌/◌, ◌^◌, ◌<◌, ◌≤◌, ◌++◌, length, drop};
ghost use Rattle.lists.specs.Tabulate.{tabulate};
ghost use Rattle.integers.specs.Divide.{nearest};
ghost use Rattle.mean_rows.specs.Reciprocal.{reciprocal_of};
ghost use Rattle.mean_rows.specs.Corners.{corners};

// The sum of a window from its four corners. Entries are modulo 2^32, and so is this: a window's sum is smaller.
fn window_sum(upper: &[u32], lower: &[u32], across: usize, u: usize) -> u32
    requires { (across + u < length upper.now) × (across + u < length lower.now) }
    ensures { result ≡ corners upper.now lower.now across u }
{
    let right = lower[across + u].wrapping_sub(upper[across + u]);
    let left = lower[u].wrapping_sub(upper[u]);
    right.wrapping_sub(left)
}

// 2^32 / (2 area), rounded up.
pub fn reciprocal(area: u32) -> u32
    requires { (1 ≤ area) × (area ≤ 961) }
    ensures { result ≡ reciprocal_of area }
{
    let twice = 2 * area as u64;
    ((4294967296 + (twice - 1)) / twice) as u32
}

// (2 sum + area) / (2 area) by the reciprocal: no division for each sample, and the one product is of two numbers of 32 bits, as vectors have it.
fn mean(sum: u32, area: u32, by: u32) -> u8
    requires { (1 ≤ area) × (area ≤ 961) × (sum ≤ 255 * area) × (by ≡ reciprocal_of area) }
    ensures { result ≡ nearest sum area }
{
    (((2 * sum + area) as u64 * by as u64) >> 32) as u8
}

// One row of means, from the table's rows at the upper and the lower edge of its windows.
pub fn mean_row(
    upper: &[u32],
    lower: &[u32],
    across: usize,
    w: usize,
    area: u32,
    by: u32,
    dst: &mut [u8],
)
    requires { (w ≤ length dst.old) × (across + w ≤ length upper.now) × (across + w ≤ length lower.now) × (1 ≤ area) × (area ≤ 961) × (by ≡ reciprocal_of area) × ((u : ℕ) → u < w → corners upper.now lower.now across u ≤ 255 * area) }
    ensures { dst.new ≡ tabulate (λ u. nearest (corners upper.now lower.now across u) area) w ++ drop w dst.old }
{
    for u in 0..w {
        dst[u] = mean(window_sum(upper, lower, across, u), area, by);
    }
}
