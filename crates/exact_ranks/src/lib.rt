// Rank stages, exactly: a rank is a level of its window and its own numerator, over 1. The rows of ranks are those of the filter's stages, which round nothing.
#![tactic(auto)]

ghost use Rattle.std.specs.Prelude.{◌≡◌, ◌++◌, ◌+◌, ◌≤◌, ◌<◌, length, get_or, drop, pos};
ghost use Rattle.lists.specs.Tabulate.{tabulate};
ghost use Rattle.model.specs.Stage as Model;
ghost use Rattle.model.specs.Exact.{numerator};
ghost use Rattle.frame.specs.Framed.{Framed, neighbours};
ghost use Rattle.near_rows.specs.Near.{near_clamped};
ghost use Rattle.near_rows.specs.Everywhere.{everywhere};
ghost use Rattle.near_rows.specs.Places.{sample_at, channel_near, Inside};

use frame::Frame;
use near_rows::Channel;
use stage_values::Rank;

// The first w levels as numerators.
fn widen(levels: &[u8], w: usize, wide: &mut [i64])
    requires { (w ≤ length levels.now) × (w ≤ length wide.old) }
    ensures { wide.new ≡ tabulate (λ u. pos (get_or levels.now u 0)) w ++ drop w wide.old }
{
    for u in 0..w {
        wide[u] = i64::from(levels[u]);
    }
}

// Whether row v of a channel of a received raster of width w lies within c of these levels.
fn levels_near(
    received: &[u8],
    channel: Channel,
    w: usize,
    v: usize,
    levels: &[u8],
    wide: &mut [i64],
    c: u64,
) -> bool
    requires { (1 ≤ w) × (w ≤ 8192) × (v < 8192) × (w ≤ length levels.now) × (w ≤ length wide.old) × Inside w (v + 1) channel received.now × (c ≤ 255) }
    ensures { result ≡ everywhere w (λ u. near_clamped c 1 (sample_at w channel received.now u v) (pos (get_or levels.now u 0))) }
{
    widen(levels, w, wide);
    near_rows::row_near(received, channel, w, v, wide, 1, c)
}

// Ranks of any window: the counts of the grey levels are carried along each row.
fn carried_near(
    frame: Frame,
    rank: Rank,
    plane: &[u8],
    received: &[u8],
    channel: Channel,
    c: u64,
) -> bool
    requires { Framed frame plane.now × Inside frame.width frame.height channel received.now × (c ≤ 255) }
    ensures { result ≡ channel_near c 1 frame.width frame.height channel received.now (λ u v. numerator (Model.rank rank.window.r rank.window.s rank.position) (neighbours frame plane.now u v)) }
{
    let w = frame.width;
    let mut counts = [0u32; 256];
    let mut levels = [0u8; 8192];
    let mut wide = [0i64; 8192];
    for v in 0..frame.height {
        carried_ranks::rank_row(frame, rank, v, plane, &mut counts, &mut levels);
        if !levels_near(received, channel, w, v, &levels, &mut wide, c) {
            return false;
        }
    }
    true
}

// Ranks of a small window: they are searched by halving, all columns of a row side by side.
fn small_near(
    frame: Frame,
    rank: Rank,
    plane: &[u8],
    received: &[u8],
    channel: Channel,
    c: u64,
) -> bool
    requires { Framed frame plane.now × (rank.window.r ≤ 3) × (rank.window.s ≤ 3) × Inside frame.width frame.height channel received.now × (c ≤ 255) }
    ensures { result ≡ channel_near c 1 frame.width frame.height channel received.now (λ u v. numerator (Model.rank rank.window.r rank.window.s rank.position) (neighbours frame plane.now u v)) }
{
    let w = frame.width;
    // seven rows of 8,192 samples, with 15 more on each side
    let mut rows = [0u8; 57554];
    let mut seen = [0u8; 8192];
    let mut levels = [0u8; 8192];
    let mut wide = [0i64; 8192];
    small_ranks::first_rows(frame, rank.window.s, plane, &mut rows);
    for v in 0..frame.height {
        small_ranks::rank_row(frame, rank, v, plane, &mut rows, &mut seen, &mut levels);
        if !levels_near(received, channel, w, v, &levels, &mut wide, c) {
            return false;
        }
    }
    true
}

// Whether each sample of a channel of a received raster lies within c levels of the ranks of a plane, by the method that is faster for its window.
pub fn rank_near(
    frame: Frame,
    rank: Rank,
    plane: &[u8],
    received: &[u8],
    channel: Channel,
    c: u64,
) -> bool
    requires { Framed frame plane.now × Inside frame.width frame.height channel received.now × (c ≤ 255) }
    ensures { result ≡ channel_near c 1 frame.width frame.height channel received.now (λ u v. numerator (Model.rank rank.window.r rank.window.s rank.position) (neighbours frame plane.now u v)) }
{
    if rank.window.r <= 3 && rank.window.s <= 3 {
        small_near(frame, rank, plane, received, channel, c)
    } else {
        carried_near(frame, rank, plane, received, channel, c)
    }
}
