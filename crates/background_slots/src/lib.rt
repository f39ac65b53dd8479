// Slots of lent memory: the rasters of a background's stills one behind the other, and beside each its number and its T.
#![tactic(auto)]

ghost use Rattle.std.specs.Prelude.{◌≡◌, true, ◌+◌, ◌*◌, ◌^◌, ◌≤◌, ◌<◌, length, get_or};
ghost use Rattle.lists.specs.Tabulate.{tabulate};
ghost use Rattle.model.specs.Outline.{largest};
ghost use Rattle.background.specs.Background.{position};
ghost use Rattle.background.specs.Room.{room_for, small_numbers, raster_size, held_room};
ghost use Rattle.background.specs.Memory.{slot};
ghost use Rattle.background_slots.specs.Slot.{place_among, with_raster, with_labels};

use answers::Held;

// Whether k stills of `size` samples have room in this much lent memory.
#[tactic(auto, unfolding(background::specs::Room::room_for))]
pub fn room_for(k: usize, size: usize, rasters: usize, labels: usize) -> bool
    requires { (k ≤ 65536) × (k * size < 2 ^ 64) }
    ensures { result ≡ room_for k size rasters labels }
{
    k * size <= rasters && 2 * k <= labels
}

// Whether what is held is four numbers of 16 bits.
#[tactic(auto, unfolding(background::specs::Room::small_numbers))]
fn small_numbers(held: Held) -> bool
    ensures { result ≡ small_numbers held }
{
    held.count <= 65535 && held.width <= 65535 && held.height <= 65535 && held.channels <= 65535
}

// How many samples each still held has.
pub fn raster_size(held: Held) -> usize
    requires { small_numbers held ≡ true }
    ensures { result ≡ raster_size held }
{
    held.width * held.height * held.channels
}

// Whether the stills held have their room. What has passed this test can be multiplied.
#[tactic(auto, unfolding(background::specs::Room::held_room))]
pub fn held_room(held: Held, rasters: usize, labels: usize) -> bool
    ensures { result ≡ held_room held rasters labels }
{
    held.count == 0
        || small_numbers(held) && room_for(held.count, raster_size(held), rasters, labels)
}

// The slot of a number, if it is there.
pub fn find(labels: &[u32], count: usize, number: u32) -> Option<usize>
    requires { 2 * count ≤ length labels.now }
    ensures { result ≡ place_among count (position number (tabulate (λ i. get_or labels.now (2 * i) 0) count)) }
{
    for i in 0..count {
        if labels[2 * i] == number {
            return Some(i);
        }
    }
    None
}

// The largest T.
pub fn largest_tolerance(labels: &[u32], count: usize) -> u32
    requires { 2 * count ≤ length labels.now }
    ensures { result ≡ largest (tabulate (λ i. get_or labels.now (2 * i + 1) 0) count) }
{
    let mut most = 0;
    for i in 0..count {
        most = most.max(labels[2 * i + 1]);
    }
    most
}

// The number and the T of slot i.
#[tactic(auto, unfolding(crate::specs::Slot::with_labels))]
pub fn put_labels(labels: &mut [u32], i: usize, number: u32, tolerance: u32)
    requires { 2 * i + 2 ≤ length labels.old }
    ensures { labels.new ≡ with_labels i number tolerance labels.old }
{
    labels[2 * i] = number;
    labels[2 * i + 1] = tolerance;
}

// The raster of slot i.
#[tactic(auto, unfolding(crate::specs::Slot::with_raster))]
pub fn put_raster(rasters: &mut [u8], i: usize, size: usize, raster: &[u8])
    requires { (i * size + size ≤ length rasters.old) × (length raster.now ≡ size) }
    ensures { rasters.new ≡ with_raster size i raster.now rasters.old }
{
    let start = i * size;
    buffers::copy_all(raster, &mut rasters[start..start + size]);
}

// The raster of slot `from` into slot `to`, which is before it or the same.
#[tactic(auto, unfolding(crate::specs::Slot::with_raster, background::specs::Memory::slot))]
pub fn move_raster(rasters: &mut [u8], size: usize, from: usize, to: usize)
    requires { (to ≤ from) × (from * size + size ≤ length rasters.old) }
    ensures { rasters.new ≡ with_raster size to (slot size from rasters.old) rasters.old }
{
    let start = from * size;
    rasters.copy_within(start..start + size, to * size);
}
