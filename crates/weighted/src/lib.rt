// Weighted stages: row values by the taps across, then levels by the taps down.
#![tactic(auto)]

ghost use Rattle.std.specs.Prelude.{◌≡◌, ◌++◌, ◌+◌, ◌*◌, ◌≤◌, length, drop};
ghost use Rattle.lists.specs.Tabulate.{raster};
ghost use Rattle.model.specs.Kernel.{Kernel};
ghost use Rattle.model.specs.Weighted.{weighted_result};
ghost use Rattle.stage_values.specs.Ready.{Ready};
ghost use Rattle.frame.specs.Framed.{Framed, worked};
ghost use Rattle.frame.specs.Padded.{padded};
ghost use Rattle.tap_sums.specs.HeldSums.{held_row, Reaches};

use frame::Frame;
use stage_values::LightAxis;
use weighted_columns::Reach;

// The rows that an axis reaches, its own among them.
fn reach_of(axis: LightAxis) -> Reach
    ensures { Reaches axis.taps.offsets axis.taps.len result.first result.last }
{
    let mut first = 15;
    let mut last = 15;
    for k in 0..axis.taps.len {
        let place = axis.taps.offsets[k] as usize;
        first = first.min(place);
        last = last.max(place);
    }
    Reach { first, last }
}

// The row values of `count` rows, from place `first` on.
fn all_rows(
    frame: Frame,
    plane: &[u8],
    axis: LightAxis,
    first: usize,
    count: usize,
    rows: &mut [i32],
)
    requires { Framed frame plane.now × (first ≤ 15) × (count ≤ 8222) × (count * frame.width ≤ length rows.old) }
    ensures { rows.new ≡ raster (λ u y. held_row axis.taps (padded frame plane.now) u (first + y)) frame.width count ++ drop (count * frame.width) rows.old }
{
    let w = frame.width;
    let mut row = [0u8; 8224];
    for y in 0..count {
        frame::padded_row(frame, plane, first + y, &mut row);
        weighted_rows::row_values(&row, w, axis, &mut rows[y * w..]);
    }
}

// A weighted stage on a plane, in place: the row values hold what it needs of the samples before. No row is made that no tap reaches.
pub fn weighted_stage(
    frame: Frame,
    across: LightAxis,
    down: LightAxis,
    plane: &mut [u8],
    rows: &mut [i32],
)
    requires { Framed frame plane.old × ((frame.height + 30) * frame.width ≤ length rows.old) }
    ensures { (K L : Kernel) → Ready K across.taps → Ready L down.taps → plane.new ≡ worked frame (weighted_result K L) plane.old }
{
    let w = frame.width;
    let h = frame.height;
    let reach = reach_of(down);
    let count = h + (reach.last - reach.first);
    all_rows(frame, plane, across, reach.first, count, rows);
    weighted_columns::all_columns(&rows[..count * w], w, h, reach, down, plane);
}
