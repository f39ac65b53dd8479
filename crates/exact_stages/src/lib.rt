// The samples of one channel held against the exact result of a recipe's one stage, whichever of the three kinds it has.
#![tactic(auto)]

ghost use Rattle.std.specs.Prelude.{◌≡◌, false, ◌*◌, ◌≤◌, length, drop, Ok};
ghost use Rattle.refusals.specs.Refusal.{verdict};
ghost use Rattle.model.specs.Exact.{denominator};
ghost use Rattle.recipe_kernels.specs.Kernels.{kernel_on, weighted_tests};
ghost use Rattle.recipe_stages.specs.StageBytes.{stage_of};
ghost use Rattle.near_rows.specs.Places.{channel_near, Inside};
ghost use Rattle.whole_taps.specs.Whole.{kernel_is};
ghost use Rattle.exact_stages.specs.Numerators.{exact_numerator};
ghost use Rattle.exact_stages.specs.Fits.{Fits, Sides};

use frame::Frame;
use near_rows::Channel;
use stage_values::Work;
use whole_taps::WholeTaps;

// The taps of an axis of ratios, 0 across and 1 down, after the stage's header bytes.
fn taps_on(part: &[u8], axis: usize) -> WholeTaps
    requires { (axis ≤ 1) × (verdict (weighted_tests false part.now) ≡ Ok tt) }
    ensures { kernel_is result.taps ≡ kernel_on false axis part.now }
{
    whole_taps::taps_of(recipe_kernels::kernel_on(part, false, axis))
}

// Whether each received sample of a channel is near enough, from the raw samples in `plane`.
pub fn channel_near(
    recipe: &[u8],
    w: usize,
    h: usize,
    plane: &[u8],
    received: &[u8],
    channel: Channel,
    c: u64,
) -> bool
    requires { Fits recipe.now × Sides w h × (length plane.now ≡ h * w) × Inside w h channel received.now × (c ≤ 255) }
    ensures { result ≡ channel_near c (denominator 1 (stage_of (drop 1 recipe.now)).work) w h channel received.now (exact_numerator w h (stage_of (drop 1 recipe.now)) plane.now) }
{
    let stage = recipe_stages::read_stage(&recipe[1..]);
    let frame = Frame {
        width: w,
        height: h,
        border: stage.border,
        value: stage.value,
    };
    match stage.work {
        Work::Weighted => {
            let across = taps_on(&recipe[4..], 0);
            let down = taps_on(&recipe[4..], 1);
            exact_weights::ratios_near(frame, across, down, plane, received, channel, c)
        }
        Work::Boxed(window) => exact_boxes::box_near(frame, window, plane, received, channel, c),
        Work::Ranked(rank) => exact_ranks::rank_near(frame, rank, plane, received, channel, c),
        Work::Outlined => false,
    }
}
