// Box stages, exactly: the sums of a window's columns are carried from row to row, and the window's own along the row. The time per sample does not depend on the radii.
#![tactic(auto)]

ghost use Rattle.std.specs.Prelude.{◌≡◌, ◌++◌, ℕ, ◌+◌, ◌*◌, ◌^◌, ◌≤◌, ◌<◌, length, get_or, drop, pos, nat_abs, ◌+ℤ◌, ◌-ℤ◌};
ghost use Rattle.lists.specs.Tabulate.{tabulate};
ghost use Rattle.model.specs.Window.{area};
ghost use Rattle.model.specs.Stage.{box};
ghost use Rattle.model.specs.Exact.{numerator};
ghost use Rattle.frame.specs.Framed.{Framed, neighbours};
ghost use Rattle.near_rows.specs.Places.{channel_near, Inside};
ghost use Rattle.exact_boxes.specs.BoxSums.{column_sum, run_sum};

use frame::Frame;
use near_rows::Channel;
use stage_values::Window;

// The sums of the first windows' columns, at every place of a padded row.
fn first_columns(frame: Frame, s: usize, plane: &[u8], row: &mut [u8], sums: &mut [i32])
    requires { Framed frame plane.now × (s ≤ 15) × (frame.width + 30 ≤ length row.old) × (frame.width + 30 ≤ length sums.old) }
    ensures { sums.new ≡ tabulate (λ x. column_sum frame plane.now s x 0) (frame.width + 30) ++ drop (frame.width + 30) sums.old }
{
    let n = frame.width + 30;
    row_sums::start_at(sums, n, 0);
    for j in 0..2 * s + 1 {
        frame::padded_row(frame, plane, 15 - s + j, row);
        row_sums::add_tap(sums, n, row, 1);
    }
}

// The same of the windows one row on: the row above leaves, and the one below enters.
fn next_columns(frame: Frame, s: usize, plane: &[u8], v: usize, row: &mut [u8], sums: &mut [i32])
    requires { Framed frame plane.now × (s ≤ 15) × (v ≤ 8192) × (frame.width + 30 ≤ length row.old) × (frame.width + 30 ≤ length sums.old) × ((x : ℕ) → x < frame.width + 30 → get_or sums.old x (pos 0) ≡ column_sum frame plane.now s x v) }
    ensures { (x : ℕ) → x < frame.width + 30 → get_or sums.new x (pos 0) ≡ column_sum frame plane.now s x (v + 1) }
{
    let n = frame.width + 30;
    frame::padded_row(frame, plane, 15 - s + v, row);
    row_sums::add_tap(sums, n, row, -1);
    frame::padded_row(frame, plane, 16 + s + v, row);
    row_sums::add_tap(sums, n, row, 1);
}

// The sum of the first n columns.
fn first_sum(columns: &[i32], n: usize) -> i64
    requires { (n ≤ 31) × (n ≤ length columns.now) }
    ensures { result ≡ run_sum columns.now n 0 }
{
    let mut sum = 0;
    for x in &columns[..n] {
        sum += i64::from(*x);
    }
    sum
}

// A sum with one column less and another more.
fn slid(sum: i64, leaves: i32, enters: i32) -> i64
    requires { nat_abs sum ≤ 2 ^ 40 }
    ensures { result ≡ sum -ℤ leaves +ℤ enters }
{
    sum - i64::from(leaves) + i64::from(enters)
}

// The sums of `across` columns from each of the first w on.
fn window_sums(columns: &[i32], across: usize, w: usize, wide: &mut [i64])
    requires { (across ≤ 31) × (w ≤ 8192) × (w + across ≤ length columns.now) × (w ≤ length wide.old) × ((i : ℕ) → i + 1 < w + across → nat_abs (get_or columns.now i (pos 0)) ≤ 2 ^ 31) }
    ensures { wide.new ≡ tabulate (run_sum columns.now across) w ++ drop w wide.old }
{
    let mut sum = first_sum(columns, across);
    for u in 0..w {
        wide[u] = sum;
        sum = slid(sum, columns[u], columns[u + across]);
    }
}

// Whether each sample of a channel of a received raster lies within c levels of the exact means of a plane.
pub fn box_near(
    frame: Frame,
    window: Window,
    plane: &[u8],
    received: &[u8],
    channel: Channel,
    c: u64,
) -> bool
    requires { Framed frame plane.now × Inside frame.width frame.height channel received.now × (c ≤ 255) }
    ensures { result ≡ channel_near c (area window.r window.s) frame.width frame.height channel received.now (λ u v. numerator (box window.r window.s) (neighbours frame plane.now u v)) }
{
    let w = frame.width;
    let h = frame.height;
    let r = window.r;
    let s = window.s;
    let across = 2 * r + 1;
    let n = (across * (2 * s + 1)) as u64;
    let mut row = [0u8; 8224];
    let mut sums = [0i32; 8224];
    let mut wide = [0i64; 8192];
    first_columns(frame, s, plane, &mut row, &mut sums);
    for v in 0..h {
        window_sums(&sums[15 - r..], across, w, &mut wide);
        if !near_rows::row_near(received, channel, w, v, &wide, n, c) {
            return false;
        }
        next_columns(frame, s, plane, v, &mut row, &mut sums);
    }
    true
}
