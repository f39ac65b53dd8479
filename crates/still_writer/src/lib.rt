// Writes a still: header and raster into a lent output.
#![tactic(auto)]

ghost use Rattle.std.specs.Prelude.{◌≡◌, ◌++◌, ◌+◌, ◌≤◌, length, drop};
ghost use Rattle.header_writer.specs.Heading.{header_bytes};
ghost use Rattle.still_writer.specs.Write.{written_of, Writes};

use refusals::Refusal;

// What a call with these numbers answers.
#[tactic(auto, using(crate::proofs::WriteLaws::few), unfolding(crate::specs::Write::written_of, crate::specs::Write::write_tests))]
fn tested(
    width: usize,
    height: usize,
    channels: usize,
    raster: usize,
    room: usize,
) -> Result<usize, Refusal>
    ensures { result ≡ written_of width height channels raster room }
{
    if !picture_sizes::is_channels(channels) {
        return Err(Refusal::Channels);
    }
    if !picture_sizes::is_side(width) || !picture_sizes::is_side(height) {
        return Err(Refusal::Side);
    }
    let size = width * height * channels;
    if raster < size {
        return Err(Refusal::RasterShort);
    }
    if size < raster {
        return Err(Refusal::RasterLong);
    }
    let total = header_writer::header(width, height, channels).len() + size;
    if room < total {
        return Err(Refusal::Room);
    }
    Ok(total)
}

// Header and raster into the front of out.
#[tactic(auto, using(crate::proofs::WriteLaws::raster_behind))]
fn put(width: usize, height: usize, channels: usize, raster: &[u8], out: &mut [u8])
    requires { (width ≤ 8192) × (height ≤ 8192) × (length (header_bytes width height channels) + length raster.now ≤ length out.old) }
    ensures { out.new ≡ header_bytes width height channels ++ (raster.now ++ drop (length (header_bytes width height channels) + length raster.now) out.old) }
{
    let start = header_writer::put_header(width, height, channels, out);
    buffers::copy_front(raster, &mut out[start..], raster.len());
}

// Write a still: how many bytes were written, or refusal 19, 3, 5, 6 or 20.
#[tactic(auto, using(crate::proofs::WriteLaws::accepted))]
pub fn write_still(
    width: usize,
    height: usize,
    channels: usize,
    raster: &[u8],
    out: &mut [u8],
) -> Result<usize, Refusal>
    ensures { Writes width height channels raster.now out.old result out.new }
{
    let len = tested(width, height, channels, raster.len(), out.len())?;
    put(width, height, channels, raster, out);
    Ok(len)
}
