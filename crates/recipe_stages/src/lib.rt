// One stage of a recipe: its tests, its length, and the stage itself by value.
#![tactic(auto)]

ghost use Rattle.std.specs.Prelude.{◌≡◌, ◌≤◌, length};
ghost use Rattle.refusals.specs.Refusal.{verdict};
ghost use Rattle.model.specs.Stage.{stage};
ghost use Rattle.stage_values.specs.Light.{Light};
ghost use Rattle.stage_values.specs.Ready.{Ready};
ghost use Rattle.stage_values.specs.Stands.{border_is, Stands};
ghost use Rattle.recipe_bytes.specs.Bytes.{at};
ghost use Rattle.stage_fields.specs.Kind.{number};
ghost use Rattle.stage_fields.specs.StageFields.{head_tests, radius_tests};
ghost use Rattle.recipe_stages.specs.StageBytes.{border_of, work_tests, work_length, work_of, stage_tests, stage_length, stage_of, kernel_for, WorkFor};

use refusals::Refusal;
use stage_fields::Kind;
use stage_values::{Axis, Border, Rank, Stage, Window, Work};

// The kind of a stage whose header bytes pass.
fn kind_of(part: &[u8]) -> Kind
    requires { verdict (head_tests part.now) ≡ Ok tt }
    ensures { number result ≡ at part.now 0 }
{
    Kind::try_from(part[0]).unwrap()
}

// The tests after the header bytes.
fn work_tests(part: &[u8], kind: Kind) -> Result<(), Refusal>
    ensures { result ≡ verdict (work_tests (number kind) part.now) }
{
    match kind {
        Kind::Ratios => recipe_kernels::tests(part, false),
        Kind::Reals => recipe_kernels::tests(part, true),
        Kind::Binomial | Kind::Box => stage_fields::radii(part),
        Kind::Rank => {
            stage_fields::radii(part)?;
            stage_fields::position(part)
        }
        Kind::Outline => Ok(()),
    }
}

// All tests of the stage at the front of a part.
pub fn tests(part: &[u8]) -> Result<(), Refusal>
    ensures { result ≡ verdict (stage_tests part.now) }
{
    stage_fields::head(part)?;
    work_tests(&part[3..], kind_of(part))
}

// How many bytes follow the header bytes.
fn work_length(part: &[u8], kind: Kind) -> usize
    requires { verdict (work_tests (number kind) part.now) ≡ Ok tt }
    ensures { (result ≡ work_length (number kind) part.now) × (result ≤ length part.now) × (result ≤ 8192) }
{
    match kind {
        Kind::Ratios => recipe_kernels::length(part, false),
        Kind::Reals => recipe_kernels::length(part, true),
        Kind::Binomial | Kind::Box => 2,
        Kind::Rank => 4,
        Kind::Outline => 0,
    }
}

// How many bytes the stage at the front of a part has: the next begins there.
pub fn stage_length(part: &[u8]) -> usize
    requires { verdict (stage_tests part.now) ≡ Ok tt }
    ensures { (result ≡ stage_length part.now) × (result ≤ length part.now) × (result ≤ 8195) }
{
    3 + work_length(&part[3..], kind_of(part))
}

#[tactic(auto, unfolding(crate::specs::StageBytes::border_of))]
fn border_of(b: u8) -> Border
    ensures { border_is result ≡ border_of b }
{
    match b {
        0 => Border::Constant,
        1 => Border::Nearest,
        2 => Border::Mirror,
        _ => Border::Wrap,
    }
}

// An axis without taps.
#[inline(always)]
fn no_axis() -> Axis
    ensures { Light result }
{
    Axis {
        offsets: [0u8; 31],
        weights: [0i32; 31],
        len: 0,
        rounded: 0,
        gain: 0,
    }
}

// An axis of the stage of a kind, 0 across and 1 down, after its header bytes: without taps where the stage has no kernels.
#[inline(always)]
fn axis_for(part: &[u8], kind: Kind, axis: usize) -> Axis
    requires { (axis ≤ 1) × (verdict (work_tests (number kind) part.now) ≡ Ok tt) }
    ensures { (number kind ≤ 3 → Ready (kernel_for (number kind) axis part.now) result) × Light result }
{
    match kind {
        Kind::Ratios => kernels::axis_of(recipe_kernels::kernel_on(part, false, axis)),
        Kind::Reals => kernels::axis_of(recipe_kernels::kernel_on(part, true, axis)),
        Kind::Binomial => { kernels::axis_of(binomials::binomial_kernel(usize::from(part[axis]))) }
        Kind::Box | Kind::Rank | Kind::Outline => no_axis(),
    }
}

// Two radii that pass.
fn window_at(part: &[u8]) -> Window
    requires { verdict (radius_tests part.now) ≡ Ok tt }
    ensures { (result.r ≡ at part.now 0) × (result.s ≡ at part.now 1) }
{
    Window {
        r: usize::from(part[0]),
        s: usize::from(part[1]),
    }
}

// The work of the stage of a kind, after its header bytes.
#[inline(always)]
fn work_for(part: &[u8], kind: Kind) -> Work
    requires { verdict (work_tests (number kind) part.now) ≡ Ok tt }
    ensures { WorkFor (number kind) part.now result }
{
    match kind {
        Kind::Ratios | Kind::Reals | Kind::Binomial => Work::Weighted,
        Kind::Box => Work::Boxed(window_at(part)),
        Kind::Rank => Work::Ranked(Rank {
            window: window_at(part),
            position: recipe_bytes::word_at(part, 2),
        }),
        Kind::Outline => Work::Outlined,
    }
}

// The stage of a kind, after its header bytes.
#[inline(always)]
fn stage_of(part: &[u8], kind: Kind, border: Border, value: u8) -> Stage
    requires { verdict (work_tests (number kind) part.now) ≡ Ok tt }
    ensures { Stands result (stage (border_is border) value (work_of (number kind) part.now)) × Light result.across × Light result.down }
{
    Stage {
        border,
        value,
        work: work_for(part, kind),
        across: axis_for(part, kind, 0),
        down: axis_for(part, kind, 1),
    }
}

// The stage at the front of a part, by value.
#[inline(always)]
pub fn read_stage(part: &[u8]) -> Stage
    requires { verdict (stage_tests part.now) ≡ Ok tt }
    ensures { Stands result (stage_of part.now) × Light result.across × Light result.down }
{
    let border = border_of(part[1]);
    stage_of(&part[3..], kind_of(part), border, part[2])
}
