// What a stage on a plane goes by, as values: no word here of the bytes that they are read from.
#![tactic(auto)]

ghost use Rattle.std.specs.Prelude.{◌≤◌};
ghost use Rattle.model.specs.Window.{area};
ghost use Rattle.stage_values.specs.Light.{Light};

// What the frame rule supplies outside.
#[derive(Clone, Copy)]
pub enum Border {
    Constant,
    Nearest,
    Mirror,
    Wrap,
}

// A window's radii, r across and s down: no offset reaches further than 15.
#[derive(Clone, Copy)]
pub struct Window {
    pub r: usize,
    pub s: usize,
    ghost near: { (r ≤ 15) × (s ≤ 15) },
}

// A window, and a position among its samples in order, from 1 on.
#[derive(Clone, Copy)]
pub struct Rank {
    pub window: Window,
    pub position: usize,
    ghost inside: { (1 ≤ position) × (position ≤ area window.r window.s) },
}

// What a stage does to each neighbourhood; a rank takes the sample at its position.
#[derive(Clone, Copy)]
pub enum Work {
    Weighted,
    Boxed(Window),
    Ranked(Rank),
    Outlined,
}

// The taps of one axis: offsets 15 too large, weights in 65,536ths and how many of them are rounded, and 65,536 times the gain, rounded up.
#[derive(Clone, Copy)]
pub struct Axis {
    pub offsets: [u8; 31],
    pub weights: [i32; 31],
    pub len: usize,
    pub rounded: usize,
    pub gain: u64,
}

// The taps of an axis that a weighted stage runs: few, within reach, and of a gain of about 4 at most.
#[derive(Clone, Copy)]
pub struct LightAxis {
    pub taps: Axis,
    ghost light: { Light taps },
}

// A stage, with both axes where its work is weighted.
#[derive(Clone, Copy)]
pub struct Stage {
    pub border: Border,
    pub value: u8,
    pub work: Work,
    pub across: Axis,
    pub down: Axis,
}
