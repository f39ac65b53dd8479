// Removes a still from a background.
#![tactic(auto)]

ghost use Rattle.std.specs.Prelude.{◌≡◌, ◌+◌, ◌*◌, ◌≤◌, length, get_or};
ghost use Rattle.refusals.specs.Refusal.{tested};
ghost use Rattle.background.specs.Background.{numbers, position};
ghost use Rattle.background.specs.Change.{remove_tests, removal};
ghost use Rattle.background.specs.Memory.{slot, background_in, Changes};
ghost use Rattle.background_slots.specs.Slot.{with_raster, with_labels};

use answers::Held;
use refusals::Refusal;

// The tests of a removal, and the slot of its still.
fn remove_tests(held: Held, number: u32, rasters: &[u8], labels: &[u32]) -> Result<usize, Refusal>
    ensures { result ≡ tested Err (remove_tests number (length rasters.now) (length labels.now) (background_in held rasters.now labels.now)) (Ok (position number (numbers (background_in held rasters.now labels.now)))) }
{
    if !background_slots::held_room(held, rasters.len(), labels.len()) {
        return Err(Refusal::Room);
    }
    background_slots::find(labels, held.count, number).ok_or(Refusal::StillNumber)
}

// The last still into the gap.
fn close_gap(gap: usize, last: usize, size: usize, rasters: &mut [u8], labels: &mut [u32])
    requires { (gap ≤ last) × (last * size + size ≤ length rasters.old) × (2 * last + 2 ≤ length labels.old) }
    ensures { (rasters.new ≡ with_raster size gap (slot size last rasters.old) rasters.old) × (labels.new ≡ with_labels gap (get_or labels.old (2 * last) 0) (get_or labels.old (2 * last + 1) 0) labels.old) }
{
    background_slots::move_raster(rasters, size, last, gap);
    let number = labels[2 * last];
    let tolerance = labels[2 * last + 1];
    background_slots::put_labels(labels, gap, number, tolerance);
}

// Remove the still of a number: what is held afterwards, or refusal 20 or 23.
pub fn remove_still(
    held: Held,
    number: u32,
    rasters: &mut [u8],
    labels: &mut [u32],
) -> Result<Held, Refusal>
    ensures { Changes (removal number (length rasters.old) (length labels.old) (background_in held rasters.old labels.old)) rasters.old rasters.new labels.old labels.new result }
{
    let gap = remove_tests(held, number, rasters, labels)?;
    let last = held.count - 1;
    let size = background_slots::raster_size(held);
    close_gap(gap, last, size, rasters, labels);
    Ok(Held {
        count: last,
        ..held
    })
}
