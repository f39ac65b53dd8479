// Counts of grey levels that are carried along: a column of samples is counted too, or taken off, and the level at which the sum of the counts reaches a
// position is looked for from where it was.
#![tactic(auto)]

ghost use Rattle.std.specs.Prelude.{◌≡◌, [], ℕ, ◌+◌, ◌≤◌, ◌<◌, length, get_or, replicate};
ghost use Rattle.histograms.specs.Histogram.{at_level, below_level, counted, histogram, total};
ghost use Rattle.histograms.specs.Column.{column_of, ColumnInside};
ghost use Rattle.histograms.specs.Position.{Summed, Reaches};

// A level, and how many samples are below it.
#[derive(Clone, Copy)]
pub struct Reached {
    pub level: u8,
    pub below: usize,
}

// No sample counted.
pub fn clear(counts: &mut [u32])
    requires { length counts.old ≡ 256 }
    ensures { counts.new ≡ histogram [] }
{
    counts.fill(0);
}

// A column's samples counted too. How many of them are below a level.
pub fn add_column(plane: &[u8], rows: &[usize], c: usize, level: u8, counts: &mut [u32]) -> usize
    requires { ColumnInside plane.now rows.now c × (length rows.now ≤ 31) × (length counts.old ≡ 256) × ((g : ℕ) → get_or counts.old g 0 ≤ 961) }
    ensures { (counts.new ≡ counted counts.old (column_of plane.now rows.now c)) × (result ≡ below_level level (column_of plane.now rows.now c)) }
{
    let mut lower = 0;
    for &start in rows {
        let grey = plane[start + c];
        counts[grey as usize] += 1;
        lower += usize::from(grey < level);
    }
    lower
}

// A column's samples taken off, so that the counts before are those after with the column counted too. How many of them are below a level.
pub fn take_column(plane: &[u8], rows: &[usize], c: usize, level: u8, counts: &mut [u32]) -> usize
    requires { ColumnInside plane.now rows.now c × (length rows.now ≤ 31) × (length counts.old ≡ 256) × ((g : ℕ) → g < 256 → at_level g (column_of plane.now rows.now c) ≤ get_or counts.old g 0) }
    ensures { (counts.old ≡ counted counts.new (column_of plane.now rows.now c)) × (result ≡ below_level level (column_of plane.now rows.now c)) }
{
    let mut lower = 0;
    for &start in rows {
        let grey = plane[start + c];
        counts[grey as usize] -= 1;
        lower += usize::from(grey < level);
    }
    lower
}

// `many` samples of one level counted too, in one step. How many of them are below a level.
pub fn add_alike(sample: u8, many: usize, level: u8, counts: &mut [u32]) -> usize
    requires { (many ≤ 31) × (length counts.old ≡ 256) × ((g : ℕ) → get_or counts.old g 0 ≤ 992) }
    ensures { (counts.new ≡ counted counts.old (replicate many sample)) × (result ≡ below_level level (replicate many sample)) }
{
    counts[sample as usize] += many as u32;
    if sample < level { many } else { 0 }
}

// `many` samples of one level taken off, in one step. How many of them are below a level.
pub fn take_alike(sample: u8, many: usize, level: u8, counts: &mut [u32]) -> usize
    requires { (many ≤ 31) × (length counts.old ≡ 256) × (many ≤ get_or counts.old sample 0) }
    ensures { (counts.old ≡ counted counts.new (replicate many sample)) × (result ≡ below_level level (replicate many sample)) }
{
    counts[sample as usize] -= many as u32;
    if sample < level { many } else { 0 }
}

// The count of a level.
fn count_of(counts: &[u32], level: u8) -> usize
    requires { length counts.now ≡ 256 }
    ensures { (result ≡ get_or counts.now level 0) × (result ≤ 4294967295) }
{
    counts[level as usize] as usize
}

// Down to a level below which fewer than p samples are.
#[tactic(auto, using(crate::proofs::Below::total_last))]
fn down_to(counts: &[u32], p: usize, from: Reached) -> Reached
    requires { (length counts.now ≡ 256) × (1 ≤ p) × Summed counts.now from }
    ensures { Summed counts.now result × (result.below < p) }
{
    let Reached {
        mut level,
        mut below,
    } = from;
    while p <= below {
        level -= 1;
        below -= count_of(counts, level);
    }
    Reached { level, below }
}

// Up to the level at which the sum reaches p.
#[tactic(auto, using(crate::proofs::Below::total_more))]
fn up_to(counts: &[u32], p: usize, from: Reached) -> Reached
    requires { (length counts.now ≡ 256) × (p ≤ 961) × (p ≤ total counts.now 256) × Summed counts.now from × (from.below < p) }
    ensures { Reaches counts.now p result }
{
    let Reached {
        mut level,
        mut below,
    } = from;
    let mut here = count_of(counts, level);
    while below + here < p {
        below += here;
        level += 1;
        here = count_of(counts, level);
    }
    Reached { level, below }
}

// The level at which the sum of the counts reaches p, from any level on whose sum is known.
pub fn reach(counts: &[u32], p: usize, from: Reached) -> Reached
    requires { (length counts.now ≡ 256) × (1 ≤ p) × (p ≤ 961) × (p ≤ total counts.now 256) × Summed counts.now from }
    ensures { Reaches counts.now p result }
{
    let low = down_to(counts, p, from);
    up_to(counts, p, low)
}
