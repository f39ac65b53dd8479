// Summed-area tables: the running sums of a frame that is extended by a window's radii, row by row. 2s+2 of them are held: a window's
// upper edge, its lower edge and all between.
#![tactic(auto)]

ghost use Rattle.std.specs.Prelude.{◌≡◌, ◌++◌, ◌+◌, ◌*◌, ◌≤◌, length, drop};
ghost use Rattle.frame.specs.Framed.{Framed};
ghost use Rattle.table_sizes.specs.Ring.{ring_size, row_start};
ghost use Rattle.area_tables.specs.HeldTable.{HeldTable};

use frame::Frame;
use stage_values::Window;

// The table's row k + 1 in the place of the oldest, from row k, which lies at `from`, and one row of the
// extended frame. That is made in `row`, sums of its samples in `fours`.
pub fn next_row(
    frame: Frame,
    window: Window,
    plane: &[u8],
    k: usize,
    from: usize,
    row: &mut [u8],
    fours: &mut [u16],
    sums: &mut [u32],
) -> usize
    requires { Framed frame plane.now × (k ≤ 8222) × (from ≡ row_start frame.width window.r window.s k) × (frame.width + 34 ≤ length row.old) × (frame.width + 33 ≤ length fours.old) × (ring_size frame.width window.r window.s ≤ length sums.old) × HeldTable frame window.r window.s plane.now k sums.old }
    ensures { (result ≡ row_start frame.width window.r window.s (k + 1)) × HeldTable frame window.r window.s plane.now (k + 1) sums.new }
{
    let w = frame.width;
    let first = 15 - window.r;
    let to = table_sizes::next_start(w, window, from);
    frame::padded_row(frame, plane, 15 - window.s + k, row);
    let width = table_sizes::table_width(w, window.r);
    running_sums::add_row(sums, from, to, width, &row[first..], fours);
    to
}

// The table's rows 0 to 2s, all above the lower edge of the first windows; gives where the last of them lies.
pub fn first_rows(
    frame: Frame,
    window: Window,
    plane: &[u8],
    row: &mut [u8],
    fours: &mut [u16],
    sums: &mut [u32],
) -> usize
    requires { Framed frame plane.now × (frame.width + 34 ≤ length row.old) × (frame.width + 33 ≤ length fours.old) × (ring_size frame.width window.r window.s ≤ length sums.old) }
    ensures { (result ≡ row_start frame.width window.r window.s (2 * window.s)) × HeldTable frame window.r window.s plane.now (2 * window.s) sums.new }
{
    let w = frame.width;
    let s = window.s;
    sums[..table_sizes::table_width(w, window.r)].fill(0);
    let mut at = 0;
    for k in 0..2 * s {
        at = next_row(frame, window, plane, k, at, row, fours, sums);
    }
    at
}
