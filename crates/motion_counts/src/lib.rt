// How many samples of two rasters have surely moved, are surely still, and are open.
#![tactic(auto)]

ghost use Rattle.std.specs.Prelude.{◌≡◌, cond, ◌+◌, ◌*◌, ◌≤◌, ◌<◌, length};
ghost use Rattle.model.specs.Within.{distance};
ghost use Rattle.movement.specs.Motions.{motions, Counted};

// So many samples of each kind.
#[derive(Clone, Copy)]
pub struct Counts {
    pub moved: usize,
    pub still: usize,
    pub open: usize,
}

// How far two samples are apart, in 65,536ths of a level.
fn apart(a: u8, b: u8) -> u32
    ensures { result ≡ 65536 * distance a b }
{
    65536 * u32::from(a.abs_diff(b))
}

// Counts the samples of two rasters under a limit in levels, with the tolerance of each raster. What both tests compare with is worked out once.
pub fn count_motions(
    first: &[u8],
    second: &[u8],
    limit: u64,
    tolerance1: u64,
    tolerance2: u64,
) -> Counts
    requires { (length first.now ≡ length second.now) × (length first.now ≤ 201326592) × (limit ≤ 255) × (tolerance1 ≤ 16711680) × (tolerance2 ≤ 16711680) }
    ensures { Counted (motions limit tolerance1 tolerance2 first.now second.now) result.moved result.still result.open }
{
    let both = (tolerance1 + tolerance2) as u32;
    let level = (65536 * limit) as u32;
    let edge = level + both;
    let n = first.len();
    let mut moved: u32 = 0;
    let mut still: u32 = 0;
    for i in 0..n {
        let d = apart(first[i], second[i]);
        moved += u32::from(edge < d);
        still += u32::from(d + both <= level);
    }
    let moved = moved as usize;
    let still = still as usize;
    let open = n - moved - still;
    Counts { moved, still, open }
}
