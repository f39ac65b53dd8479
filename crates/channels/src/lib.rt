// One channel of a raster, taken out of it and put into one.
#![tactic(auto)]

ghost use Rattle.std.specs.Prelude.{◌≡◌, cond, ◌&&◌, ◌++◌, ℕ, ◌+◌, ◌*◌, ◌/◌, ◌%◌, ◌≤◌, ◌<◌, length, get_or, drop, eqb, ltb};
ghost use Rattle.channels.specs.Channel.{channel};

// Channel c of a raster of n places, into the front of dst.
#[tactic(auto, using(crate::proofs::Interleaved::taking), unfolding(crate::specs::Channel::channel))]
pub fn take_channel(raster: &[u8], n: usize, channels: usize, c: usize, dst: &mut [u8])
    requires { (n ≤ 67108864) × (channels ≤ 3) × (c < channels) × (n * channels ≤ length raster.now) × (n ≤ length dst.old) }
    ensures { dst.new ≡ channel channels n raster.now c ++ drop n dst.old }
{
    for i in 0..n {
        dst[i] = raster[i * channels + c];
    }
}

// The n samples at the front of src into channel c of a raster. All else stays.
#[tactic(auto, using(crate::proofs::Interleaved::putting))]
pub fn put_channel(src: &[u8], n: usize, channels: usize, c: usize, dst: &mut [u8])
    requires { (n ≤ 67108864) × (channels ≤ 3) × (c < channels) × (n ≤ length src.now) × (n * channels ≤ length dst.old) }
    ensures { (k : ℕ) → get_or dst.new k 0 ≡ cond (ltb k (n * channels) && eqb (k % channels) c) (get_or src.now (k / channels) 0) (get_or dst.old k 0) }
{
    for i in 0..n {
        dst[i * channels + c] = src[i];
    }
}
