// Rank stages: the p-th smallest sample of each window. Windows of up to 7 by 7 are searched by halving, all columns of a row side by side; for others the
// counts of the grey levels are carried along.
#![tactic(auto)]

ghost use Rattle.std.specs.Prelude.{◌≡◌, ◌*◌, ◌≤◌, length, take};
ghost use Rattle.model.specs.Rank.{rank_result};
ghost use Rattle.frame.specs.Framed.{Framed, worked};
ghost use Rattle.kept_planes.specs.HeldRow.{kept};

use frame::Frame;
use stage_values::Rank;

// A rank stage on the plane at the front of `work`, by the method that is faster for its window. The samples before are copied behind it first, and stay there.
pub fn rank_stage(frame: Frame, rank: Rank, work: &mut [u8])
    requires { Framed frame (take (frame.height * frame.width) work.old) × (2 * (frame.height * frame.width) ≤ length work.old) }
    ensures { (take (frame.height * frame.width) work.new ≡ worked frame (rank_result rank.window.r rank.window.s rank.position) (take (frame.height * frame.width) work.old)) × (kept frame work.new ≡ take (frame.height * frame.width) work.old) }
{
    let n = frame.height * frame.width;
    kept_planes::keep(work, n);
    let (dst, kept) = work.split_at_mut(n);
    let plane = &kept[..n];
    if rank.window.r <= 3 && rank.window.s <= 3 {
        small_ranks::rank_rows(frame, rank, plane, dst);
    } else {
        carried_ranks::rank_rows(frame, rank, plane, dst);
    }
}
