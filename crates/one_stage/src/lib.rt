// One stage on a plane in lent memory, by its kind of work.
#![tactic(auto)]

ghost use Rattle.std.specs.Prelude.{◌≡◌, ◌+◌, ◌*◌, ◌≤◌, length, take};
ghost use Rattle.lists.specs.Tabulate.{raster};
ghost use Rattle.model.specs.Stage as Model;
ghost use Rattle.model.specs.Plane.{plane_of};
ghost use Rattle.stage_values.specs.Stands.{Stands};
ghost use Rattle.table_sizes.specs.Needs.{work_sums};

use frame::Frame;
use stage_values::{LightAxis, Stage, Work};

// One stage, on the plane at the front of `work`.
pub fn run_stage(s: Stage, w: usize, h: usize, work: &mut [u8], rows: &mut [i32], sums: &mut [u32])
    requires { (1 ≤ w) × (w ≤ 8192) × (1 ≤ h) × (h ≤ 8192) × (2 * (h * w) ≤ length work.old) × ((h + 30) * w ≤ length rows.old) × ((t : Model.Stage) × Stands s t × (work_sums w t.work ≤ length sums.old)) }
    ensures { (t : Model.Stage) → Stands s t → take (h * w) work.new ≡ raster (Model.stage_plane w h t (plane_of w (take (h * w) work.old))) w h }
{
    let n = h * w;
    let frame = Frame {
        width: w,
        height: h,
        border: s.border,
        value: s.value,
    };
    match s.work {
        Work::Weighted => {
            let across = LightAxis { taps: s.across };
            let down = LightAxis { taps: s.down };
            weighted::weighted_stage(frame, across, down, &mut work[..n], rows);
        }
        Work::Boxed(window) => boxes::box_stage(frame, window, work, sums),
        Work::Ranked(rank) => ranks::rank_stage(frame, rank, work),
        Work::Outlined => outlines::outline_stage(frame, work),
    }
}
