// A window's counts along a row: the frame rule places the rows once, then each column as it enters or leaves.
#![tactic(auto)]

ghost use Rattle.std.specs.Prelude.{◌≡◌, ℕ, ◌-◌, ◌≤◌, ◌<◌, length, get_or, take};
ghost use Rattle.frame.specs.Framed.{Framed};
ghost use Rattle.histograms.specs.Histogram.{at_level, below_level, counted, histogram};
ghost use Rattle.histograms.specs.Position.{Summed};
ghost use Rattle.window_columns.specs.Rows.{row_starts, Rows};
ghost use Rattle.window_columns.specs.Columns.{column_in, side_by_side};

use frame::Frame;
use histograms::Reached;

// Of `down` rows from place y on, where those inside start, and how many these are.
pub fn place_rows(frame: Frame, y: usize, down: usize, rows: &mut [usize]) -> usize
    requires { (1 ≤ frame.height) × (frame.height ≤ 8192) × (frame.width ≤ 8192) × (y ≤ 8300) × (down ≤ 31) × (down ≤ length rows.old) }
    ensures { (result ≤ down) × (take result rows.new ≡ row_starts frame y down) }
{
    let mut n = 0;
    for j in 0..down {
        if let Some(v) = places::place(frame.border, frame.height, y + j) {
            rows[n] = v * frame.width;
            n += 1;
        }
    }
    n
}

// The column at place x counted too. How many of its samples are below a level.
fn enter(
    frame: Frame,
    plane: &[u8],
    rows: &[usize],
    down: usize,
    x: usize,
    level: u8,
    counts: &mut [u32],
) -> usize
    requires { Framed frame plane.now × Rows frame plane.now down rows.now × (down ≤ 31) × (x ≤ 16384) × (length counts.old ≡ 256) × ((g : ℕ) → get_or counts.old g 0 ≤ 961) }
    ensures { (counts.new ≡ counted counts.old (column_in frame plane.now rows.now down x)) × (result ≡ below_level level (column_in frame plane.now rows.now down x)) }
{
    match places::place(frame.border, frame.width, x) {
        None => histograms::add_alike(frame.value, down, level, counts),
        Some(c) => {
            let inside = histograms::add_column(plane, rows, c, level, counts);
            let outside = histograms::add_alike(frame.value, down - rows.len(), level, counts);
            inside + outside
        }
    }
}

// The column at place x taken off: the counts before are those after with the column counted too. How many of its samples are below a level.
fn leave(
    frame: Frame,
    plane: &[u8],
    rows: &[usize],
    down: usize,
    x: usize,
    level: u8,
    counts: &mut [u32],
) -> usize
    requires { Framed frame plane.now × Rows frame plane.now down rows.now × (down ≤ 31) × (x ≤ 16384) × (length counts.old ≡ 256) × ((g : ℕ) → g < 256 → at_level g (column_in frame plane.now rows.now down x) ≤ get_or counts.old g 0) }
    ensures { (counts.old ≡ counted counts.new (column_in frame plane.now rows.now down x)) × (result ≡ below_level level (column_in frame plane.now rows.now down x)) }
{
    match places::place(frame.border, frame.width, x) {
        None => histograms::take_alike(frame.value, down, level, counts),
        Some(c) => {
            let inside = histograms::take_column(plane, rows, c, level, counts);
            let outside = histograms::take_alike(frame.value, down - rows.len(), level, counts);
            inside + outside
        }
    }
}

// The counts of the window whose first column is at place x, whatever was counted before.
pub fn count_window(
    frame: Frame,
    plane: &[u8],
    rows: &[usize],
    across: usize,
    down: usize,
    x: usize,
    counts: &mut [u32],
)
    requires { Framed frame plane.now × Rows frame plane.now down rows.now × (across ≤ 31) × (down ≤ 31) × (x ≤ 8300) × (length counts.old ≡ 256) }
    ensures { counts.new ≡ histogram (side_by_side (column_in frame plane.now rows.now down) x across) }
{
    histograms::clear(counts);
    for i in 0..across {
        // no level is carried yet, and no sample is below 0
        enter(frame, plane, rows, down, x + i, 0, counts);
    }
}

// The counts of the window whose first column is at place x, from those of the one before: its first column leaves, and the one behind its last enters. The
// level stays, with how many samples are below it now.
pub fn next_window(
    frame: Frame,
    plane: &[u8],
    rows: &[usize],
    across: usize,
    down: usize,
    x: usize,
    at: Reached,
    counts: &mut [u32],
) -> Reached
    requires { Framed frame plane.now × Rows frame plane.now down rows.now × (1 ≤ across) × (across ≤ 31) × (down ≤ 31) × (1 ≤ x) × (x ≤ 8300) × (counts.old ≡ histogram (side_by_side (column_in frame plane.now rows.now down) (x - 1) across)) × Summed counts.old at }
    ensures { (counts.new ≡ histogram (side_by_side (column_in frame plane.now rows.now down) x across)) × Summed counts.new result }
{
    let fewer = leave(frame, plane, rows, down, x - 1, at.level, counts);
    let more = enter(frame, plane, rows, down, x - 1 + across, at.level, counts);
    Reached {
        below: at.below - fewer + more,
        ..at
    }
}
