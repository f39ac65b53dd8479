// Reads a still: its size, its channels, and the place of its raster; or its header alone.
#![tactic(auto)]

ghost use Rattle.std.specs.Prelude.{◌≡◌, ◌+◌, cond, leb, Some, None};
ghost use Rattle.header_reader.specs.Answers.{whole_header};
ghost use Rattle.still_reader.specs.Head.{channels_of, announced, head_of};
ghost use Rattle.still_reader.specs.Read.{still_of};

use answers::Picture;
use header_reader::Header;
use refusals::Refusal;

// The channels that a magic's second byte stands for, if any.
#[tactic(auto, unfolding(crate::specs::Head::channels_of))]
fn channels_of(b: u8) -> Option<usize>
    ensures { result ≡ cond (leb 1 (channels_of b)) (Some (channels_of b)) None }
{
    match b {
        b'5' => Some(1),
        b'6' => Some(3),
        _ => None,
    }
}

// What a whole header announces, of a raster that has to begin at `start`.
#[tactic(auto, unfolding(crate::specs::Head::announced, crate::specs::Head::header_tests, header_reader::specs::Answers::whole_header))]
fn picture(channels: usize, header: Header, start: usize) -> Result<Picture, Refusal>
    requires { start ≡ 2 + header.len }
    ensures { result ≡ announced channels (whole_header header.width header.height header.maximum header.len) }
{
    if !picture_sizes::is_side(header.width) || !picture_sizes::is_side(header.height) {
        return Err(Refusal::Side);
    }
    if header.maximum != 255 {
        return Err(Refusal::Maximum);
    }
    Ok(Picture {
        width: header.width,
        height: header.height,
        channels,
        start,
    })
}

// What a still's header says, whatever follows it: width, height, channels and the place where the raster has to begin, or refusal 1 to 4.
#[tactic(auto, using(crate::proofs::ReadLaws::ends_inside), unfolding(crate::specs::Head::head_of, crate::specs::Head::magic_test, crate::specs::Head::channels_of))]
pub fn read_head(bytes: &[u8]) -> Result<Picture, Refusal>
    ensures { result ≡ head_of bytes.now }
{
    if bytes.len() < 2 || bytes[0] != b'P' {
        return Err(Refusal::Magic);
    }
    let channels = channels_of(bytes[1]).ok_or(Refusal::Magic)?;
    let header = header_reader::read_header(&bytes[2..]).ok_or(Refusal::Header)?;
    picture(channels, header, 2 + header.len)
}

// The width, height and channels of a still and the place of its raster, or refusal 1 to 6.
#[tactic(auto, using(crate::proofs::Headed::limits), unfolding(crate::specs::Read::still_of))]
pub fn read_still(bytes: &[u8]) -> Result<Picture, Refusal>
    ensures { result ≡ still_of bytes.now }
{
    let head = read_head(bytes)?;
    let size = head.width * head.height * head.channels;
    let rest = bytes.len() - head.start;
    if rest < size {
        return Err(Refusal::RasterShort);
    }
    if size < rest {
        return Err(Refusal::RasterLong);
    }
    Ok(head)
}
