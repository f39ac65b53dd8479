// The p-th smallest samples of small windows, for all columns of a row side by side: the levels that a result can be among are halved until one is left. So every
// inner loop runs over consecutive bytes.
#![tactic(auto)]

ghost use Rattle.std.specs.Prelude.{◌≡◌, cond, ◌++◌, ℕ, ◌+◌, ◌*◌, ◌≤◌, ◌<◌, leb, ltb, length, get_or, drop};
ghost use Rattle.lists.specs.Count.{at_most};
ghost use Rattle.lists.specs.Tabulate.{tabulate};
ghost use Rattle.model.specs.Rank.{smallest};
ghost use Rattle.rank_search.specs.WindowAt.{window_at};
ghost use Rattle.rank_search.specs.Halving.{halved};

// A count, with one sample more.
fn plus(seen: u8, sample: u8, trial: u8) -> u8
    requires { seen < 255 }
    ensures { result ≡ seen + cond (leb sample trial) 1 0 }
{
    if sample <= trial { seen + 1 } else { seen }
}

// One sample more of each column's window, counted where it is at most the column's trial level, `step` above its lowest.
fn tally(row: &[u8], low: &[u8], step: u8, w: usize, seen: &mut [u8])
    requires { (w ≤ length row.now) × (w ≤ length low.now) × (w ≤ length seen.old) × ((u : ℕ) → u < w → get_or low.now u 0 + step ≤ 255) × ((u : ℕ) → u < w → get_or seen.old u 0 < 255) }
    ensures { seen.new ≡ tabulate (λ u. get_or seen.old u 0 + cond (leb (get_or row.now u 0) (get_or low.now u 0 + step)) 1 0) w ++ drop w seen.old }
{
    for u in 0..w {
        seen[u] = plus(seen[u], row[u], low[u] + step);
    }
}

// One row more of each column's window: `across` samples, from the column's own place on.
fn tally_row(row: &[u8], low: &[u8], step: u8, w: usize, across: usize, seen: &mut [u8])
    requires { (w + across ≤ length row.now) × (w ≤ length low.now) × (w ≤ length seen.old) × ((u : ℕ) → u < w → get_or low.now u 0 + step ≤ 255) × ((u : ℕ) → u < w → get_or seen.old u 0 + across ≤ 255) }
    ensures { seen.new ≡ tabulate (λ u. get_or seen.old u 0 + at_most (get_or low.now u 0 + step) (tabulate (λ i. get_or row.now (u + i) 0) across)) w ++ drop w seen.old }
{
    for i in 0..across {
        tally(&row[i..], low, step, w, seen);
    }
}

// How many samples of each column's window of n rows are at most its trial level. The counts start at 0.
fn tally_window(rows: &[u8], w: usize, r: usize, n: usize, low: &[u8], step: u8, seen: &mut [u8])
    requires { (w ≤ 8192) × (r ≤ 3) × (n ≤ 7) × (n * (w + 30) ≤ length rows.now) × (w ≤ length low.now) × (w ≤ length seen.old) × ((u : ℕ) → u < w → get_or low.now u 0 + step ≤ 255) × ((u : ℕ) → u < w → get_or seen.old u 0 ≡ 0) }
    ensures { seen.new ≡ tabulate (λ u. at_most (get_or low.now u 0 + step) (window_at rows.now w r n u)) w ++ drop w seen.old }
{
    for j in 0..n {
        let at = 15 - r + j * (w + 30);
        tally_row(&rows[at..], low, step, w, 2 * r + 1, seen);
    }
}

// The lowest level that is left: the upper half's where fewer than p samples are in the lower half or below.
fn raised(low: u8, half: u8, seen: u8, p: u8) -> u8
    requires { low + half ≤ 255 }
    ensures { result ≡ cond (ltb seen p) (low + half) low }
{
    if seen < p { low + half } else { low }
}

// The lowest level of each column, once its samples are counted.
fn raise(seen: &[u8], p: u8, half: u8, w: usize, low: &mut [u8])
    requires { (w ≤ length seen.now) × (w ≤ length low.old) × ((u : ℕ) → u < w → get_or low.old u 0 + half ≤ 255) }
    ensures { low.new ≡ tabulate (λ u. cond (ltb (get_or seen.now u 0) p) (get_or low.old u 0 + half) (get_or low.old u 0)) w ++ drop w low.old }
{
    for u in 0..w {
        low[u] = raised(low[u], half, seen[u], p);
    }
}

// One halving of each column's levels, from its lowest on: the lower half, of `half` levels, stays if the result is there, else the upper one.
fn halve(
    rows: &[u8],
    w: usize,
    r: usize,
    n: usize,
    p: u8,
    half: u8,
    low: &mut [u8],
    seen: &mut [u8],
)
    requires { (w ≤ 8192) × (r ≤ 3) × (n ≤ 7) × (n * (w + 30) ≤ length rows.now) × (1 ≤ half) × (w ≤ length low.old) × (w ≤ length seen.old) × ((u : ℕ) → u < w → get_or low.old u 0 + half ≤ 255) }
    ensures { low.new ≡ tabulate (λ u. halved p half (window_at rows.now w r n u) (get_or low.old u 0)) w ++ drop w low.old }
{
    seen[..w].fill(0);
    tally_window(rows, w, r, n, low, half - 1, seen);
    raise(seen, p, half, w, low);
}

// The p-th smallest sample of each column's window of n rows: among 256 levels from 0 on, then among half as many, down to one.
pub fn rank_row(rows: &[u8], w: usize, r: usize, n: usize, p: u8, dst: &mut [u8], seen: &mut [u8])
    requires { (w ≤ 8192) × (r ≤ 3) × (n ≤ 7) × (n * (w + 30) ≤ length rows.now) × (1 ≤ p) × (p ≤ n * (2 * r + 1)) × (w ≤ length dst.old) × (w ≤ length seen.old) }
    ensures { dst.new ≡ tabulate (λ u. smallest p (window_at rows.now w r n u)) w ++ drop w dst.old }
{
    dst[..w].fill(0);
    let mut levels: usize = 256;
    while levels > 1 {
        let half = levels / 2;
        halve(rows, w, r, n, p, half as u8, dst, seen);
        levels -= half;
    }
}
