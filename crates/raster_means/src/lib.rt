// The mean of rasters that lie one behind the other. It is made block by block, so that the sums stay near: samples are the inner loop and rasters the outer one.
#![tactic(auto)]

ghost use Rattle.std.specs.Prelude.{◌≡◌, ◌++◌, ℕ, ◌+◌, ◌-◌, ◌*◌, ◌/◌, ◌^◌, ◌≤◌, ◌<◌, length, get_or, drop};
ghost use Rattle.lists.specs.Tabulate.{tabulate};
ghost use Rattle.integers.specs.Divide.{nearest};
ghost use Rattle.raster_means.specs.Sums.{place_sum};

// How many samples have their sums side by side.
const BLOCK: usize = 4096;

// The samples of one raster on top of the sums.
fn add_samples(sums: &mut [u32], n: usize, samples: &[u8])
    requires { (n ≤ length sums.old) × (n ≤ length samples.now) × ((u : ℕ) → u < n → get_or sums.old u 0 ≤ 2 ^ 24) }
    ensures { sums.new ≡ tabulate (λ u. get_or sums.old u 0 + get_or samples.now u 0) n ++ drop n sums.old }
{
    for u in 0..n {
        sums[u] += u32::from(samples[u]);
    }
}

// The sums of the first n samples from `at` on, over k rasters.
fn block_sums(rasters: &[u8], size: usize, k: usize, at: usize, n: usize, sums: &mut [u32])
    requires { (k ≤ 65535) × (at + n ≤ size) × (k * size ≤ length rasters.now) × (n ≤ length sums.old) × ((u : ℕ) → get_or sums.old u 0 ≡ 0) }
    ensures { sums.new ≡ tabulate (λ u. place_sum rasters.now size k (at + u)) n ++ drop n sums.old }
{
    for i in 0..k {
        add_samples(sums, n, &rasters[i * size + at..]);
    }
}

// 2^48 / (2 k), rounded up.
fn reciprocal(k: usize) -> u64
    requires { (1 ≤ k) × (k ≤ 65535) }
    ensures { result ≡ (2 ^ 48 + (2 * k - 1)) / (2 * k) }
{
    let twice = 2 * k as u64;
    (1_u64 << 48).div_ceil(twice)
}

// A sum divided by k by the reciprocal: no division for each sample.
fn mean(sum: u32, k: u32, by: u64) -> u8
    requires { (1 ≤ k) × (k ≤ 65535) × (sum ≤ 255 * k) × (by ≡ (2 ^ 48 + (2 * k - 1)) / (2 * k)) }
    ensures { result ≡ nearest sum k }
{
    (((2 * sum + k) as u64 * by) >> 48) as u8
}

// The first n sums as means.
fn block_means(sums: &[u32], n: usize, k: u32, by: u64, out: &mut [u8])
    requires { (n ≤ length sums.now) × (n ≤ length out.old) × (1 ≤ k) × (k ≤ 65535) × (by ≡ (2 ^ 48 + (2 * k - 1)) / (2 * k)) × ((u : ℕ) → u < n → get_or sums.now u 0 ≤ 255 * k) }
    ensures { out.new ≡ tabulate (λ u. nearest (get_or sums.now u 0) k) n ++ drop n out.old }
{
    for u in 0..n {
        out[u] = mean(sums[u], k, by);
    }
}

// The means of the n samples from `at` on, over k rasters, into the front of out.
fn block(rasters: &[u8], size: usize, k: usize, at: usize, n: usize, by: u64, out: &mut [u8])
    requires { (1 ≤ k) × (k ≤ 65535) × (at + n ≤ size) × (n ≤ 4096) × (k * size ≤ length rasters.now) × (n ≤ length out.old) × (by ≡ (2 ^ 48 + (2 * k - 1)) / (2 * k)) }
    ensures { out.new ≡ tabulate (λ u. nearest (place_sum rasters.now size k (at + u)) k) n ++ drop n out.old }
{
    let mut sums = [0u32; BLOCK];
    block_sums(rasters, size, k, at, n, &mut sums);
    block_means(&sums, n, k as u32, by, out);
}

// The mean of the first k rasters of `size` samples, into the front of out.
pub fn mean_raster(rasters: &[u8], size: usize, k: usize, out: &mut [u8])
    requires { (1 ≤ k) × (k ≤ 65535) × (k * size ≤ length rasters.now) × (size ≤ length out.old) }
    ensures { out.new ≡ tabulate (λ j. nearest (place_sum rasters.now size k j) k) size ++ drop size out.old }
{
    let by = reciprocal(k);
    for at in (0..size).step_by(BLOCK) {
        let n = BLOCK.min(size - at);
        block(rasters, size, k, at, n, by, &mut out[at..]);
    }
}
