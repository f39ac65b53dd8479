// Outline stages: three rows of the frame at a time, each made once.
#![tactic(auto)]

ghost use Rattle.std.specs.Prelude.{◌≡◌, ◌++◌, ◌+◌, ◌*◌, ◌≤◌, ◌<◌, min, length, take, drop};
ghost use Rattle.lists.specs.Tabulate.{tabulate};
ghost use Rattle.model.specs.Outline.{edge_strength, outline_result};
ghost use Rattle.frame.specs.Framed.{Framed, worked};
ghost use Rattle.outlines.specs.Square.{square_at};
ghost use Rattle.kept_planes.specs.HeldRow.{kept, Held};

use frame::Frame;

// Nine samples, three from the front of each row.
fn square_of(above: &[u8], here: &[u8], below: &[u8]) -> [u8; 9]
    requires { (3 ≤ length above.now) × (3 ≤ length here.now) × (3 ≤ length below.now) }
    ensures { result ≡ take 3 above.now ++ take 3 here.now ++ take 3 below.now }
{
    [
        above[0], above[1], above[2], here[0], here[1], here[2], below[0], below[1], below[2],
    ]
}

// The levels of a row, from rows with 15 samples more on each side.
fn write_row(above: &[u8], here: &[u8], below: &[u8], w: usize, dst: &mut [u8])
    requires { (w + 30 ≤ length above.now) × (w + 30 ≤ length here.now) × (w + 30 ≤ length below.now) × (w ≤ length dst.old) }
    ensures { dst.new ≡ tabulate (λ u. min (edge_strength (square_at above.now here.now below.now (14 + u))) 255) w ++ drop w dst.old }
{
    for u in 0..w {
        let left = 14 + u;
        dst[u] = edges::level(square_of(&above[left..], &here[left..], &below[left..]));
    }
}

// All rows, into a plane of the frame's size. The rows above and at the first are held.
fn write_rows(
    frame: Frame,
    plane: &[u8],
    above: &mut [u8],
    here: &mut [u8],
    below: &mut [u8],
    dst: &mut [u8],
)
    requires { Framed frame plane.now × (frame.width + 30 ≤ length above.old) × Held frame plane.now 14 here.old × Held frame plane.now 15 below.old × (length dst.old ≡ frame.height * frame.width) }
    ensures { dst.new ≡ worked frame outline_result plane.now }
{
    let w = frame.width;
    for v in 0..frame.height {
        kept_planes::next_rows(frame, plane, v, above, here, below);
        write_row(above, here, below, w, &mut dst[v * w..]);
    }
}

// An outline stage on the plane at the front of `work`. The samples before are copied behind it first, and stay there.
pub fn outline_stage(frame: Frame, work: &mut [u8])
    requires { Framed frame (take (frame.height * frame.width) work.old) × (2 * (frame.height * frame.width) ≤ length work.old) }
    ensures { (take (frame.height * frame.width) work.new ≡ worked frame outline_result (take (frame.height * frame.width) work.old)) × (kept frame work.new ≡ take (frame.height * frame.width) work.old) }
{
    let n = frame.height * frame.width;
    let mut above = [0u8; 8224];
    let mut here = [0u8; 8224];
    let mut below = [0u8; 8224];
    kept_planes::keep(work, n);
    let (dst, kept) = work.split_at_mut(n);
    let plane = &kept[..n];
    frame::padded_row(frame, plane, 14, &mut here);
    frame::padded_row(frame, plane, 15, &mut below);
    write_rows(frame, plane, &mut above, &mut here, &mut below, dst);
}
