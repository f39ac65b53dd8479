// The frame rule for whole rows: the samples that it supplies on both sides, so that no loop above tests for the border.
#![tactic(auto)]

ghost use Rattle.std.specs.Prelude.{◌≡◌, ◌++◌, ◌+◌, ◌≤◌, length, drop};
ghost use Rattle.lists.specs.Tabulate.{tabulate};
ghost use Rattle.frame.specs.Framed.{Framed};
ghost use Rattle.frame.specs.Padded.{row_sample, padded};

use stage_values::Border;

// How far an offset reaches. Places are held this much too large, so they are at least 0.
pub const REACH: usize = 15;

// A frame's size, and what is supplied outside it.
#[derive(Clone, Copy)]
pub struct Frame {
    pub width: usize,
    pub height: usize,
    pub border: Border,
    pub value: u8,
}

// The sample of a row that is supplied at place x.
#[inline(always)]
fn sample(frame: Frame, row: &[u8], x: usize) -> u8
    requires { (1 ≤ frame.width) × (frame.width ≤ 8192) × (frame.width ≤ length row.now) × (x ≤ 16384) }
    ensures { result ≡ row_sample frame row.now x }
{
    match places::place(frame.border, frame.width, x) {
        Some(u) => row[u],
        None => frame.value,
    }
}

// The 15 samples of a row from place `from` on.
fn side(frame: Frame, row: &[u8], from: usize, dst: &mut [u8])
    requires { (1 ≤ frame.width) × (frame.width ≤ 8192) × (frame.width ≤ length row.now) × (from ≤ 8300) × (15 ≤ length dst.old) }
    ensures { dst.new ≡ tabulate (λ i. row_sample frame row.now (from + i)) 15 ++ drop 15 dst.old }
{
    for i in 0..15 {
        dst[i] = sample(frame, row, from + i);
    }
}

// A row of the frame with the samples on both sides.
fn row_and_sides(frame: Frame, row: &[u8], dst: &mut [u8])
    requires { (1 ≤ frame.width) × (frame.width ≤ 8192) × (frame.width ≤ length row.now) × (frame.width + 30 ≤ length dst.old) }
    ensures { dst.new ≡ tabulate (row_sample frame row.now) (frame.width + 30) ++ drop (frame.width + 30) dst.old }
{
    let w = frame.width;
    let end = REACH + w;
    side(frame, row, 0, dst);
    buffers::copy_all(&row[..w], &mut dst[REACH..end]);
    side(frame, row, end, &mut dst[end..]);
}

// Row y - 15 of a frame, with 15 samples more on each side, into the front of dst.
pub fn padded_row(frame: Frame, plane: &[u8], y: usize, dst: &mut [u8])
    requires { Framed frame plane.now × (y ≤ 16384) × (frame.width + 30 ≤ length dst.old) }
    ensures { dst.new ≡ tabulate (λ x. padded frame plane.now x y) (frame.width + 30) ++ drop (frame.width + 30) dst.old }
{
    let w = frame.width;
    match places::place(frame.border, frame.height, y) {
        Some(v) => row_and_sides(frame, &plane[v * w..], dst),
        None => dst[..w + 30].fill(frame.value),
    }
}
