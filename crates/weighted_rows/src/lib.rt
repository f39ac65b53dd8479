// Row values: the taps across. Taps are the outer loop and columns the inner one.
#![tactic(auto)]

ghost use Rattle.std.specs.Prelude.{◌≡◌, ◌++◌, ◌+◌, ◌≤◌, length, get_or, drop, pos};
ghost use Rattle.lists.specs.Tabulate.{tabulate};
ghost use Rattle.tap_sums.specs.HeldSums.{axis_sum, row_of};

use stage_values::LightAxis;

// The row values of one padded row.
pub fn row_values(row: &[u8], n: usize, axis: LightAxis, sums: &mut [i32])
    requires { (n ≤ 8192) × (n + 30 ≤ length row.now) × (n ≤ length sums.old) }
    ensures { sums.new ≡ tabulate (λ u. row_of (axis_sum axis.taps (λ o. pos (get_or row.now (u + o) 0)))) n ++ drop n sums.old }
{
    row_sums::start_at(sums, n, row_sums::HALF);
    for k in 0..axis.taps.len {
        let at = axis.taps.offsets[k] as usize;
        row_sums::add_tap(sums, n, &row[at..], axis.taps.weights[k]);
    }
    row_sums::finish(sums, n);
}
