// Rank stages of any window: how often each grey level occurs in it gives its p-th smallest sample. The counts are carried along the row, and so is the level
// that was found.
#![tactic(auto)]

ghost use Rattle.std.specs.Prelude.{◌≡◌, ◌++◌, ℕ, ◌+◌, ◌-◌, ◌*◌, ◌≤◌, ◌<◌, length, drop};
ghost use Rattle.lists.specs.Tabulate.{tabulate};
ghost use Rattle.model.specs.Rank.{rank_result};
ghost use Rattle.frame.specs.Framed.{Framed, neighbours, worked};
ghost use Rattle.histograms.specs.Histogram.{histogram};
ghost use Rattle.window_columns.specs.Rows.{row_starts};
ghost use Rattle.window_columns.specs.Columns.{column_in, side_by_side};

use frame::Frame;
use histograms::Reached;
use stage_values::Rank;

// Row v of a rank stage on a plane, into the front of `dst`. Counts of the grey levels are made in `counts`.
pub fn rank_row(
    frame: Frame,
    rank: Rank,
    v: usize,
    plane: &[u8],
    counts: &mut [u32],
    dst: &mut [u8],
)
    requires { Framed frame plane.now × (v < frame.height) × (length counts.old ≡ 256) × (frame.width ≤ length dst.old) }
    ensures { dst.new ≡ tabulate (λ u. rank_result rank.window.r rank.window.s rank.position (neighbours frame plane.now u v)) frame.width ++ drop frame.width dst.old }
{
    let r = rank.window.r;
    let s = rank.window.s;
    let across = 2 * r + 1;
    let down = 2 * s + 1;
    let mut starts = [0usize; 31];
    let inside = window_columns::place_rows(frame, 15 - s + v, down, &mut starts);
    let rows = &starts[..inside];
    window_columns::count_window(frame, plane, rows, across, down, 15 - r, counts);
    let mut at = Reached { level: 0, below: 0 };
    for u in 0..frame.width {
        let here = histograms::reach(counts, rank.position, at);
        dst[u] = here.level;
        let next = 16 - r + u;
        at = window_columns::next_window(frame, plane, rows, across, down, next, here, counts);
    }
}

// A rank stage on a plane, into the front of `dst`.
pub fn rank_rows(frame: Frame, rank: Rank, plane: &[u8], dst: &mut [u8])
    requires { Framed frame plane.now × (frame.height * frame.width ≤ length dst.old) }
    ensures { dst.new ≡ worked frame (rank_result rank.window.r rank.window.s rank.position) plane.now ++ drop (frame.height * frame.width) dst.old }
{
    let w = frame.width;
    let mut counts = [0u32; 256];
    for v in 0..frame.height {
        rank_row(frame, rank, v, plane, &mut counts, &mut dst[v * w..]);
    }
}
