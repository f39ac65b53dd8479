// Adds a still to a background.
#![tactic(auto)]

ghost use Rattle.std.specs.Prelude.{◌≡◌, ◌+◌, ◌*◌, ◌≤◌, length};
ghost use Rattle.refusals.specs.Refusal.{tested, verdict};
ghost use Rattle.background.specs.Background.{member};
ghost use Rattle.background.specs.Change.{suits, add_tests, joined, addition};
ghost use Rattle.background.specs.Memory.{background_in, Changes};
ghost use Rattle.background_slots.specs.Slot.{with_raster, with_labels};

use answers::{Held, Picture};
use refusals::Refusal;

// So many stills are held at most.
const FULL: usize = 1000;

// Whether a still of this size can stand beside those held.
#[tactic(auto, unfolding(background::specs::Change::suits))]
fn suits_held(held: Held, picture: Picture) -> bool
    ensures { result ≡ suits picture.width picture.height picture.channels held }
{
    held.count == 0
        || held.width == picture.width
            && held.height == picture.height
            && held.channels == picture.channels
}

// The tests of an addition behind the still's own.
fn add_tests(
    held: Held,
    picture: Picture,
    number: u32,
    rasters: &[u8],
    labels: &[u32],
) -> Result<(), Refusal>
    requires { (picture.width * picture.height ≤ 67108864) × (picture.width * picture.height * picture.channels ≤ 201326592) }
    ensures { result ≡ verdict (add_tests number picture.width picture.height picture.channels (length rasters.now) (length labels.now) (background_in held rasters.now labels.now)) }
{
    let size = picture.width * picture.height * picture.channels;
    if !background_slots::held_room(held, rasters.len(), labels.len()) {
        return Err(Refusal::Room);
    }
    if background_slots::find(labels, held.count, number).is_some() {
        return Err(Refusal::StillNumber);
    }
    if !suits_held(held, picture) {
        return Err(Refusal::StillSize);
    }
    if held.count >= FULL {
        return Err(Refusal::BackgroundFull);
    }
    if !background_slots::room_for(held.count + 1, size, rasters.len(), labels.len()) {
        return Err(Refusal::Room);
    }
    Ok(())
}

// A still into a slot.
fn put_still(
    i: usize,
    raster: &[u8],
    number: u32,
    tolerance: u32,
    rasters: &mut [u8],
    labels: &mut [u32],
)
    requires { (i * length raster.now + length raster.now ≤ length rasters.old) × (2 * i + 2 ≤ length labels.old) }
    ensures { (rasters.new ≡ with_raster (length raster.now) i raster.now rasters.old) × (labels.new ≡ with_labels i number tolerance labels.old) }
{
    background_slots::put_raster(rasters, i, raster.len(), raster);
    background_slots::put_labels(labels, i, number, tolerance);
}

// A picture added behind those held: what is held afterwards, or refusal 20, 23, 24 or 25.
fn add_picture(
    held: Held,
    picture: Picture,
    raster: &[u8],
    number: u32,
    tolerance: u32,
    rasters: &mut [u8],
    labels: &mut [u32],
) -> Result<Held, Refusal>
    requires { (picture.width * picture.height ≤ 67108864) × (picture.width * picture.height * picture.channels ≤ 201326592) × (length raster.now ≡ picture.width * picture.height * picture.channels) }
    ensures { Changes (tested Err (add_tests number picture.width picture.height picture.channels (length rasters.old) (length labels.old) (background_in held rasters.old labels.old)) (Ok (joined picture.width picture.height picture.channels (member number tolerance raster.now) (background_in held rasters.old labels.old)))) rasters.old rasters.new labels.old labels.new result }
{
    add_tests(held, picture, number, rasters, labels)?;
    put_still(held.count, raster, number, tolerance, rasters, labels);
    Ok(Held {
        count: held.count + 1,
        width: picture.width,
        height: picture.height,
        channels: picture.channels,
    })
}

// Add a still with its number and its T: what is held afterwards, or the still's refusal, 20, 23, 24 or 25.
pub fn add_still(
    held: Held,
    still: &[u8],
    number: u32,
    tolerance: u32,
    rasters: &mut [u8],
    labels: &mut [u32],
) -> Result<Held, Refusal>
    ensures { Changes (addition still.now number tolerance (length rasters.old) (length labels.old) (background_in held rasters.old labels.old)) rasters.old rasters.new labels.old labels.new result }
{
    let picture = still_reader::read_still(still)?;
    let raster = &still[picture.start..];
    add_picture(held, picture, raster, number, tolerance, rasters, labels)
}
