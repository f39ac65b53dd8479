// Box stages: a row of means is made as soon as the lower edge of its windows is among the running sums, and the next row of sums takes the upper edge's place.
#![tactic(auto)]

ghost use Rattle.std.specs.Prelude.{◌≡◌, ◌+◌, ◌*◌, ◌≤◌, length, take};
ghost use Rattle.model.specs.Box.{box_result};
ghost use Rattle.frame.specs.Framed.{Framed, worked};
ghost use Rattle.table_sizes.specs.Ring.{ring_size, row_start};
ghost use Rattle.area_tables.specs.HeldTable.{HeldTable};
ghost use Rattle.kept_planes.specs.HeldRow.{kept};

use frame::Frame;
use stage_values::Window;

// All rows of means, into a plane of the frame's size. Rows of the samples before are made in `row`, sums of a row's samples in `fours`. The row of sums
// above the lower edge of the first windows lies at `last`.
fn write_rows(
    frame: Frame,
    window: Window,
    last: usize,
    plane: &[u8],
    row: &mut [u8],
    fours: &mut [u16],
    sums: &mut [u32],
    dst: &mut [u8],
)
    requires { Framed frame plane.now × (frame.width + 34 ≤ length row.old) × (frame.width + 33 ≤ length fours.old) × (ring_size frame.width window.r window.s ≤ length sums.old) × (last ≡ row_start frame.width window.r window.s (2 * window.s)) × HeldTable frame window.r window.s plane.now (2 * window.s) sums.old × (length dst.old ≡ frame.height * frame.width) }
    ensures { dst.new ≡ worked frame (box_result window.r window.s) plane.now }
{
    let w = frame.width;
    let s = window.s;
    let by = mean_rows::reciprocal(window_means::area(window));
    let mut lower = last;
    for v in 0..frame.height {
        lower = area_tables::next_row(frame, window, plane, 2 * s + v, lower, row, fours, sums);
        window_means::row_of_means(sums, w, window, lower, by, &mut dst[v * w..]);
    }
}

// A box stage on the plane at the front of `work`. The samples before are copied behind it first, and stay there.
pub fn box_stage(frame: Frame, window: Window, work: &mut [u8], sums: &mut [u32])
    requires { Framed frame (take (frame.height * frame.width) work.old) × (2 * (frame.height * frame.width) ≤ length work.old) × (ring_size frame.width window.r window.s ≤ length sums.old) }
    ensures { (take (frame.height * frame.width) work.new ≡ worked frame (box_result window.r window.s) (take (frame.height * frame.width) work.old)) × (kept frame work.new ≡ take (frame.height * frame.width) work.old) }
{
    let n = frame.height * frame.width;
    // 15 + 8,192 + 15 samples, and what sums of four read behind a row
    let mut row = [0u8; 8232];
    let mut fours = [0u16; 8232];
    kept_planes::keep(work, n);
    let (dst, kept) = work.split_at_mut(n);
    let plane = &kept[..n];
    let last = area_tables::first_rows(frame, window, plane, &mut row, &mut fours, sums);
    write_rows(frame, window, last, plane, &mut row, &mut fours, sums, dst);
}
