// What the calls give where they are not refused.
#![tactic(auto)]

// Read a still: its size, and at which byte the raster begins.
#[derive(Clone, Copy, Debug, PartialEq, Eq)]
pub struct Picture {
    pub width: usize,
    pub height: usize,
    pub channels: usize,
    pub start: usize,
}

// Read a recipe: S and T.
#[derive(Clone, Copy, Debug, PartialEq, Eq)]
pub struct Recipe {
    pub count: u8,
    pub tolerance: u64,
}

// Filter a file: the picture's size, T and the output's length.
#[derive(Clone, Copy, Debug, PartialEq, Eq)]
pub struct Filtered {
    pub width: usize,
    pub height: usize,
    pub channels: usize,
    pub tolerance: u64,
    pub len: usize,
}

// What must be lent to filter a still: the lengths of the work bytes, the row values, the sums and the output; and T.
#[derive(Clone, Copy, Debug, PartialEq, Eq)]
pub struct Needs {
    pub works: usize,
    pub rows: usize,
    pub sums: usize,
    pub out: usize,
    pub tolerance: u64,
}

// What a background holds: how many stills, and the size of each. Of an empty one no size is looked at.
#[derive(Clone, Copy, Debug, PartialEq, Eq)]
pub struct Held {
    pub count: usize,
    pub width: usize,
    pub height: usize,
    pub channels: usize,
}

// The mean of a background that holds any: of how many stills, its T and the output's length.
#[derive(Clone, Copy, Debug, PartialEq, Eq)]
pub struct Mean {
    pub stills: usize,
    pub tolerance: u64,
    pub len: usize,
}

// The movement between two stills: how many samples have surely moved, are surely still and are open, both T, and the length of each output.
#[derive(Clone, Copy, Debug, PartialEq, Eq)]
pub struct Movement {
    pub moved: usize,
    pub still: usize,
    pub open: usize,
    pub tolerance1: u64,
    pub tolerance2: u64,
    pub len: usize,
}
