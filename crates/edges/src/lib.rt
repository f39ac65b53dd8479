// Edges: four kernels respond to a square of nine samples, and the strongest response counts.
#![tactic(auto)]

ghost use Rattle.std.specs.Prelude.{◌≡◌, [], ℕ, ◌+◌, ◌≤◌, ◌<◌, min, max, get_or, pos, nat_abs, ◌+ℤ◌, ◌*ℤ◌};
ghost use Rattle.model.specs.Outline.{outline_kernels, response, edge_strength};

// The four kernels, each by its rows, the top row first: the definition's.
const KERNELS: [[i16; 9]; 4] = [
    [-1, 0, 1, -1, 0, 1, -1, 0, 1],
    [-1, -1, -1, 0, 0, 0, 1, 1, 1],
    [0, 1, 1, -1, 0, 1, -1, -1, 0],
    [-1, -1, 0, -1, 0, 1, 0, 1, 1],
];

// A sum and one product more.
fn plus(sum: i16, weight: i16, sample: u8) -> i16
    requires { (nat_abs sum ≤ 2040) × (nat_abs weight ≤ 1) }
    ensures { (result ≡ sum +ℤ weight *ℤ pos sample) × (nat_abs result ≤ nat_abs sum + 255) }
{
    sum + weight * i16::from(sample)
}

// A kernel's response to the nine samples under it. It is at most 9 times 255 in size, so 16 bits hold it.
fn response_of(kernel: [i16; 9], square: [u8; 9]) -> i16
    requires { (i : ℕ) → nat_abs (get_or kernel i (pos 0)) ≤ 1 }
    ensures { (result ≡ response kernel square) × (nat_abs result ≤ 2295) }
{
    let mut sum = 0;
    for i in 0..9 {
        sum = plus(sum, kernel[i], square[i]);
    }
    sum
}

// The largest magnitude among the four responses.
fn strength(square: [u8; 9]) -> u16
    ensures { result ≡ edge_strength square }
{
    let mut most: u16 = 0;
    for kernel in &KERNELS {
        most = most.max(response_of(*kernel, square).unsigned_abs());
    }
    most
}

// The level of an outline in the middle of nine samples, row by row.
pub fn level(square: [u8; 9]) -> u8
    ensures { result ≡ min (edge_strength square) 255 }
{
    strength(square).min(255) as u8
}
