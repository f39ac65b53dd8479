// Stages of ratios, exactly: for each row the sums down at every place of a padded row, and then the sums across. Whole sums can be taken in either order, and in this
// one a single row of them is held at a time.
#![tactic(auto)]

ghost use Rattle.std.specs.Prelude.{◌≡◌, ◌++◌, ℕ, ◌+◌, ◌*◌, ◌^◌, ◌≤◌, ◌<◌, length, get_or, drop, pos, nat_abs};
ghost use Rattle.lists.specs.Tabulate.{tabulate};
ghost use Rattle.model.specs.Stage.{weighted};
ghost use Rattle.model.specs.Exact.{numerator};
ghost use Rattle.frame.specs.Framed.{Framed, neighbours};
ghost use Rattle.frame.specs.Padded.{padded};
ghost use Rattle.near_rows.specs.Places.{channel_near, Inside};
ghost use Rattle.whole_taps.specs.Whole.{kernel_is};
ghost use Rattle.exact_weights.specs.Sums.{tap_sum};

use frame::Frame;
use near_rows::Channel;
use whole_taps::WholeTaps;

// The sums down of row v, at every place of a padded row.
fn sums_down(
    frame: Frame,
    plane: &[u8],
    down: WholeTaps,
    v: usize,
    row: &mut [u8],
    sums: &mut [i32],
)
    requires { Framed frame plane.now × (v ≤ 8192) × (frame.width + 30 ≤ length row.old) × (frame.width + 30 ≤ length sums.old) }
    ensures { sums.new ≡ tabulate (λ x. tap_sum down.taps (λ o. pos (padded frame plane.now x (v + o)))) (frame.width + 30) ++ drop (frame.width + 30) sums.old }
{
    let n = frame.width + 30;
    row_sums::start_at(sums, n, 0);
    for k in 0..down.taps.len {
        frame::padded_row(frame, plane, v + down.taps.offsets[k] as usize, row);
        row_sums::add_tap(sums, n, row, down.taps.weights[k]);
    }
}

// The sums across of a row of sums down.
fn sums_across(sums: &[i32], across: WholeTaps, w: usize, wide: &mut [i64])
    requires { (w ≤ 8192) × (w + 30 ≤ length sums.now) × (w ≤ length wide.old) × ((x : ℕ) → nat_abs (get_or sums.now x (pos 0)) ≤ 2 ^ 27) }
    ensures { wide.new ≡ tabulate (λ u. tap_sum across.taps (λ o. get_or sums.now (u + o) (pos 0))) w ++ drop w wide.old }
{
    row_sums::start_at(wide, w, 0);
    for k in 0..across.taps.len {
        let at = across.taps.offsets[k] as usize;
        row_sums::add_tap(wide, w, &sums[at..], across.taps.weights[k]);
    }
}

// The numerators of row v, not clamped.
fn row_numerators(
    frame: Frame,
    across: WholeTaps,
    down: WholeTaps,
    plane: &[u8],
    v: usize,
    row: &mut [u8],
    sums: &mut [i32],
    wide: &mut [i64],
)
    requires { Framed frame plane.now × (v ≤ 8192) × (frame.width + 30 ≤ length row.old) × (frame.width + 30 ≤ length sums.old) × (frame.width ≤ length wide.old) }
    ensures { (u : ℕ) → u < frame.width → get_or wide.new u (pos 0) ≡ numerator (weighted (kernel_is across.taps) (kernel_is down.taps)) (neighbours frame plane.now u v) }
{
    let w = frame.width;
    let n = w + 30;
    sums_down(frame, plane, down, v, row, sums);
    sums_across(&sums[..n], across, w, wide);
}

// N: the divisors of both axes together.
fn denominator(across: WholeTaps, down: WholeTaps) -> u64
    ensures { (result ≡ across.taps.divisor * down.taps.divisor) × (result ≤ 2 ^ 32) }
{
    across.taps.divisor * down.taps.divisor
}

// Whether each sample of a channel of a received raster lies within c levels of the exact result of ratios on a plane.
pub fn ratios_near(
    frame: Frame,
    across: WholeTaps,
    down: WholeTaps,
    plane: &[u8],
    received: &[u8],
    channel: Channel,
    c: u64,
) -> bool
    requires { Framed frame plane.now × Inside frame.width frame.height channel received.now × (c ≤ 255) }
    ensures { result ≡ channel_near c (across.taps.divisor * down.taps.divisor) frame.width frame.height channel received.now (λ u v. numerator (weighted (kernel_is across.taps) (kernel_is down.taps)) (neighbours frame plane.now u v)) }
{
    let w = frame.width;
    let h = frame.height;
    let n = denominator(across, down);
    let mut row = [0u8; 8224];
    let mut sums = [0i32; 8224];
    let mut wide = [0i64; 8192];
    for v in 0..h {
        row_numerators(
            frame, across, down, plane, v, &mut row, &mut sums, &mut wide,
        );
        if !near_rows::row_near(received, channel, w, v, &wide, n, c) {
            return false;
        }
    }
    true
}
