// Levels: the taps down. Taps are the outer loop and columns the inner one.
#![tactic(auto)]

ghost use Rattle.std.specs.Prelude.{◌≡◌, ◌++◌, ℕ, ◌+◌, ◌-◌, ◌*◌, ◌^◌, ◌≤◌, ◌<◌, length, get_or, drop, pos, nat_abs, ◌+ℤ◌, ◌*ℤ◌};
ghost use Rattle.integers.specs.Divide.{floor_div, clamp};
ghost use Rattle.lists.specs.Tabulate.{tabulate, raster};
ghost use Rattle.tap_sums.specs.HeldSums.{axis_sum, Reaches, level_of};

use stage_values::LightAxis;

// The half that rounds a sum to a level.
const HALF: i64 = 2097152;

// A sum as a level, rounded down and clamped: its half is in it.
fn level(sum: i64) -> u8
    ensures { result ≡ clamp 255 (floor_div sum (2 ^ 22)) }
{
    (sum >> 22).clamp(0, 255) as u8
}

// The first n sums as levels.
fn finish(sums: &[i64], n: usize, dst: &mut [u8])
    requires { (n ≤ length sums.now) × (n ≤ length dst.old) }
    ensures { dst.new ≡ tabulate (λ u. clamp 255 (floor_div (get_or sums.now u (pos 0)) (2 ^ 22))) n ++ drop n dst.old }
{
    for u in 0..n {
        dst[u] = level(sums[u]);
    }
}

// The sums for one row of the result. The rows at the front are those from place `first` of the taps on.
fn column_sums(rows: &[i32], w: usize, first: usize, axis: LightAxis, sums: &mut [i64])
    requires { (w ≤ 8192) × (w ≤ length sums.old) × ((i : ℕ) → i < axis.taps.len → (first ≤ get_or axis.taps.offsets i 0) × ((get_or axis.taps.offsets i 0 - first) * w + w ≤ length rows.now)) × ((i : ℕ) → nat_abs (get_or rows.now i (pos 0)) ≤ 65536) }
    ensures { sums.new ≡ tabulate (λ u. axis_sum axis.taps (λ o. get_or rows.now ((o - first) * w + u) (pos 0)) +ℤ pos (2 ^ 21)) w ++ drop w sums.old }
{
    row_sums::start_at(sums, w, HALF);
    for k in 0..axis.taps.len {
        let at = (axis.taps.offsets[k] as usize - first) * w;
        row_sums::add_tap(sums, w, &rows[at..], axis.taps.weights[k]);
    }
}

// The first and the last row that the taps down reach, held 15 too large.
#[derive(Clone, Copy)]
pub struct Reach {
    pub first: usize,
    pub last: usize,
}

// The levels of a plane of w by h, from row values whose first row is the first that is reached.
pub fn all_columns(
    rows: &[i32],
    w: usize,
    h: usize,
    reach: Reach,
    axis: LightAxis,
    plane: &mut [u8],
)
    requires { (w ≤ 8192) × (h ≤ 8192) × (length plane.old ≡ h * w) × Reaches axis.taps.offsets axis.taps.len reach.first reach.last × (length rows.now ≡ (h + (reach.last - reach.first)) * w) × ((i : ℕ) → nat_abs (get_or rows.now i (pos 0)) ≤ 65536) }
    ensures { plane.new ≡ raster (λ u v. level_of (axis_sum axis.taps (λ o. get_or rows.now ((v + (o - reach.first)) * w + u) (pos 0)))) w h }
{
    let mut sums = [0i64; 8192];
    for v in 0..h {
        let at = v * w;
        column_sums(&rows[at..], w, reach.first, axis, &mut sums);
        finish(&sums, w, &mut plane[at..]);
    }
}
