// How many running sums a stage holds, and where their rows lie.
#![tactic(auto)]

ghost use Rattle.std.specs.Prelude.{◌≡◌, ℕ, ◌+◌, ◌*◌, ◌≤◌};
ghost use Rattle.model.specs.Stage as Model;
ghost use Rattle.stage_values.specs.Stands.{Stands};
ghost use Rattle.table_sizes.specs.Ring.{table_width, ring_size, row_start};
ghost use Rattle.table_sizes.specs.Needs.{work_sums};

use stage_values::{Stage, Window, Work};

// The entries of a row of sums.
pub fn table_width(w: usize, r: usize) -> usize
    requires { (w ≤ 8192) × (r ≤ 15) }
    ensures { result ≡ table_width w r }
{
    w + 2 * r + 1
}

// The entries of a whole ring of rows.
fn ring_size(w: usize, window: Window) -> usize
    requires { w ≤ 8192 }
    ensures { result ≡ ring_size w window.r window.s }
{
    (2 * window.s + 2) * table_width(w, window.r)
}

// Where the row after that at `at` lies: behind it, or at the front where the ring ends.
pub fn next_start(w: usize, window: Window, at: usize) -> usize
    requires { (w ≤ 8192) × ((y : ℕ) × (at ≡ row_start w window.r window.s y)) }
    ensures { (y : ℕ) → at ≡ row_start w window.r window.s y → result ≡ row_start w window.r window.s (y + 1) }
{
    let next = at + table_width(w, window.r);
    if next < ring_size(w, window) { next } else { 0 }
}

// The sums that a box stage holds, 0 for other work.
pub fn work_sums(stage: Stage, w: usize) -> usize
    requires { w ≤ 8192 }
    ensures { (t : Model.Stage) → Stands stage t → result ≡ work_sums w t.work }
{
    match stage.work {
        Work::Boxed(window) => ring_size(w, window),
        Work::Weighted | Work::Ranked(_) | Work::Outlined => 0,
    }
}
