// A row of means over windows, from the rows of running sums that are held.
#![tactic(auto)]

ghost use Rattle.std.specs.Prelude.{◌≡◌, ◌++◌, ℕ, ◌+◌, ◌*◌, ◌≤◌, ◌<◌, length, drop};
ghost use Rattle.integers.specs.Divide.{nearest};
ghost use Rattle.lists.specs.Tabulate.{tabulate};
ghost use Rattle.model.specs.Window as Model;
ghost use Rattle.table_sizes.specs.Ring.{ring_size, row_start};
ghost use Rattle.mean_rows.specs.Reciprocal.{reciprocal_of};
ghost use Rattle.window_means.specs.WindowCorners.{corners_at};

use stage_values::Window;

// How many samples a window has.
pub fn area(window: Window) -> u32
    ensures { result ≡ Model.area window.r window.s }
{
    ((2 * window.r + 1) * (2 * window.s + 1)) as u32
}

// A row of means, from the rows of sums that are held: the lower edge of its windows lies at `lower`, and their upper edge, the oldest row, after it.
pub fn row_of_means(sums: &[u32], w: usize, window: Window, lower: usize, by: u32, dst: &mut [u8])
    requires { (w ≤ 8192) × (ring_size w window.r window.s ≤ length sums.now) × (w ≤ length dst.old) × (by ≡ reciprocal_of (Model.area window.r window.s)) × ((v : ℕ) × (lower ≡ row_start w window.r window.s (v + (2 * window.s + 1))) × ((u : ℕ) → u < w → corners_at sums.now w window.r window.s u v ≤ 255 * Model.area window.r window.s)) }
    ensures { (v : ℕ) → lower ≡ row_start w window.r window.s (v + (2 * window.s + 1)) → dst.new ≡ tabulate (λ u. nearest (corners_at sums.now w window.r window.s u v) (Model.area window.r window.s)) w ++ drop w dst.old }
{
    let n = area(window);
    let across = 2 * window.r + 1;
    let upper = table_sizes::next_start(w, window, lower);
    mean_rows::mean_row(&sums[upper..], &sums[lower..], across, w, n, by, dst);
}
