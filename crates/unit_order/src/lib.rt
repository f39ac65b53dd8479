// The order in which taps are served with spare units.
#![tactic(auto)]

ghost use Rattle.std.specs.Prelude.{◌≡◌, ◌<◌, length, get_or};
ghost use Rattle.unit_order.specs.Order.{distance, nearer, before};

// How far a held offset lies from 15, which stands for offset 0.
#[tactic(auto, unfolding(crate::specs::Order::distance))]
fn distance(offset: u8) -> u8
    ensures { result ≡ distance offset }
{
    offset.abs_diff(15)
}

// Whether a held offset lies nearer to 15 than another one, or just as near and lower.
#[tactic(auto, unfolding(crate::specs::Order::nearer))]
fn nearer(offset: u8, other: u8) -> bool
    ensures { result ≡ nearer offset other }
{
    let here = distance(offset);
    let there = distance(other);
    here < there || (here == there && offset < other)
}

// Whether tap j comes before tap i.
#[tactic(auto, unfolding(crate::specs::Order::before))]
pub fn comes_before(rest: &[u64], offsets: &[u8], j: usize, i: usize) -> bool
    requires { (i < length rest.now) × (j < length rest.now) × (i < length offsets.now) × (j < length offsets.now) }
    ensures { result ≡ before (get_or rest.now j 0) (get_or offsets.now j 0) (get_or rest.now i 0) (get_or offsets.now i 0) }
{
    rest[i] < rest[j] || (rest[i] == rest[j] && nearer(offsets[j], offsets[i]))
}
