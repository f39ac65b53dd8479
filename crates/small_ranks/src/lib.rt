// Rank stages of small windows: the rows that a row of windows reaches are held, one behind another, and each result is searched among them.
#![tactic(auto)]

ghost use Rattle.std.specs.Prelude.{◌≡◌, ◌++◌, ℕ, ◌+◌, ◌-◌, ◌*◌, ◌≤◌, ◌<◌, length, drop};
ghost use Rattle.lists.specs.Tabulate.{tabulate};
ghost use Rattle.model.specs.Rank.{rank_result};
ghost use Rattle.frame.specs.Framed.{Framed, neighbours, worked};
ghost use Rattle.small_ranks.specs.HeldRows.{HeldRows};

use frame::Frame;
use stage_values::Rank;

// One row on: every row moves up by one slot, and the next is made in slot `last`. Slot 0 was at place y.
fn push_row(frame: Frame, plane: &[u8], y: usize, last: usize, rows: &mut [u8])
    requires { Framed frame plane.now × (y ≤ 8300) × (last ≤ 6) × ((last + 1) * (frame.width + 30) ≤ length rows.old) }
    ensures { (k : ℕ) → HeldRows frame plane.now y (k + 1) (last + 1) rows.old → HeldRows frame plane.now (y + 1) k (last + 1) rows.new }
{
    let stride = frame.width + 30;
    let at = last * stride;
    rows.copy_within(stride..stride + at, 0);
    frame::padded_row(frame, plane, y + 1 + last, &mut rows[at..]);
}

// The rows of the first windows but their last, one by one, in slots 1 to 2s.
pub fn first_rows(frame: Frame, s: usize, plane: &[u8], rows: &mut [u8])
    requires { Framed frame plane.now × (s ≤ 3) × ((2 * s + 1) * (frame.width + 30) ≤ length rows.old) }
    ensures { HeldRows frame plane.now (14 - s) 1 (2 * s + 1) rows.new }
{
    let last = 2 * s;
    let first = 14 - s;
    for y in first - last..first {
        push_row(frame, plane, y, last, rows);
    }
}

// Row v of a rank stage of a small window, into the front of `dst`: the last row of its windows comes in, and the results are searched among all of them.
pub fn rank_row(
    frame: Frame,
    rank: Rank,
    v: usize,
    plane: &[u8],
    rows: &mut [u8],
    seen: &mut [u8],
    dst: &mut [u8],
)
    requires { Framed frame plane.now × (rank.window.r ≤ 3) × (rank.window.s ≤ 3) × (v < frame.height) × ((2 * rank.window.s + 1) * (frame.width + 30) ≤ length rows.old) × (frame.width ≤ length seen.old) × (frame.width ≤ length dst.old) × HeldRows frame plane.now (14 - rank.window.s + v) 1 (2 * rank.window.s + 1) rows.old }
    ensures { (dst.new ≡ tabulate (λ u. rank_result rank.window.r rank.window.s rank.position (neighbours frame plane.now u v)) frame.width ++ drop frame.width dst.old) × HeldRows frame plane.now (14 - rank.window.s + (v + 1)) 1 (2 * rank.window.s + 1) rows.new }
{
    let w = frame.width;
    let r = rank.window.r;
    let s = rank.window.s;
    let p = rank.position as u8;
    push_row(frame, plane, 14 - s + v, 2 * s, rows);
    rank_search::rank_row(rows, w, r, 2 * s + 1, p, dst, seen);
}

// A rank stage of a small window on a plane, into the front of `dst`.
pub fn rank_rows(frame: Frame, rank: Rank, plane: &[u8], dst: &mut [u8])
    requires { Framed frame plane.now × (rank.window.r ≤ 3) × (rank.window.s ≤ 3) × (frame.height * frame.width ≤ length dst.old) }
    ensures { dst.new ≡ worked frame (rank_result rank.window.r rank.window.s rank.position) plane.now ++ drop (frame.height * frame.width) dst.old }
{
    let w = frame.width;
    // seven rows of 8,192 samples, with 15 more on each side
    let mut rows = [0u8; 57554];
    let mut seen = [0u8; 8192];
    first_rows(frame, rank.window.s, plane, &mut rows);
    for v in 0..frame.height {
        rank_row(
            frame,
            rank,
            v,
            plane,
            &mut rows,
            &mut seen,
            &mut dst[v * w..],
        );
    }
}
