// For a stage that looks at samples which it has written over: the plane before it is kept behind the one that it writes, and its rows come from there.
#![tactic(auto)]

ghost use Rattle.std.specs.Prelude.{◌≡◌, ◌++◌, ◌+◌, ◌≤◌, ◌<◌, length, take, drop};
ghost use Rattle.frame.specs.Framed.{Framed};
ghost use Rattle.kept_planes.specs.HeldRow.{Held};

use frame::Frame;

// The plane of n samples at the front of `work` once more behind itself.
pub fn keep(work: &mut [u8], n: usize)
    requires { n + n ≤ length work.old }
    ensures { work.new ≡ take n work.old ++ take n work.old ++ drop (n + n) work.old }
{
    let (front, behind) = work.split_at_mut(n);
    buffers::copy_all(front, &mut behind[..n]);
}

// Rows v - 1, v and v + 1: the two that are held move up, and the third is made.
pub fn next_rows(
    frame: Frame,
    plane: &[u8],
    v: usize,
    above: &mut [u8],
    here: &mut [u8],
    below: &mut [u8],
)
    requires { Framed frame plane.now × (v < frame.height) × (frame.width + 30 ≤ length above.old) × Held frame plane.now (14 + v) here.old × Held frame plane.now (15 + v) below.old }
    ensures { Held frame plane.now (14 + v) above.new × Held frame plane.now (15 + v) here.new × Held frame plane.now (16 + v) below.new }
{
    let n = frame.width + 30;
    buffers::copy_all(&here[..n], &mut above[..n]);
    buffers::copy_all(&below[..n], &mut here[..n]);
    frame::padded_row(frame, plane, 16 + v, below);
}
