// Received samples held against exact fractions: whole numerators over one denominator, nothing rounded.
#![tactic(auto)]

ghost use Rattle.std.specs.Prelude.{◌≡◌, ℕ, ◌+◌, ◌*◌, ◌^◌, ◌≤◌, ◌<◌, length, get_or, pos};
ghost use Rattle.near_rows.specs.Near.{near_clamped};
ghost use Rattle.near_rows.specs.Everywhere.{everywhere};
ghost use Rattle.near_rows.specs.Places.{sample_at, Inside};

// One channel of a raster with `channels` samples a place.
#[derive(Clone, Copy)]
pub struct Channel {
    pub channels: usize,
    pub index: usize,
}

// Whether a level lies within c levels of z over n, once that is cut to 0 to 255.
fn near(y: u8, z: i64, n: u64, c: u64) -> bool
    requires { (n ≤ 2 ^ 32) × (c ≤ 255) }
    ensures { result ≡ near_clamped c n y z }
{
    let x = (z.max(0) as u64).min(255 * n);
    (n * u64::from(y)).abs_diff(x) <= c * n
}

// Whether each of w samples, `step` apart, lies within c levels of its numerator over n.
fn all_near(received: &[u8], step: usize, numerators: &[i64], w: usize, n: u64, c: u64) -> bool
    requires { (w ≤ 8192) × (step ≤ 3) × (w ≤ length numerators.now) × ((u : ℕ) → u < w → u * step < length received.now) × (n ≤ 2 ^ 32) × (c ≤ 255) }
    ensures { result ≡ everywhere w (λ u. near_clamped c n (get_or received.now (u * step) 0) (get_or numerators.now u (pos 0))) }
{
    (0..w).all(|u| near(received[u * step], numerators[u], n, c))
}

// Whether row v of a channel of a received raster of width w lies within c levels of its numerators over n.
pub fn row_near(
    received: &[u8],
    channel: Channel,
    w: usize,
    v: usize,
    numerators: &[i64],
    n: u64,
    c: u64,
) -> bool
    requires { (1 ≤ w) × (w ≤ 8192) × (v < 8192) × (w ≤ length numerators.now) × Inside w (v + 1) channel received.now × (n ≤ 2 ^ 32) × (c ≤ 255) }
    ensures { result ≡ everywhere w (λ u. near_clamped c n (sample_at w channel received.now u v) (get_or numerators.now u (pos 0))) }
{
    let step = channel.channels;
    let at = v * w * step + channel.index;
    all_near(&received[at..], step, numerators, w, n, c)
}
