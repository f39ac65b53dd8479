// The frame rule on one axis: the index inside that is supplied at a place, by border. Places are held 15 too large, so they are at least 0.
#![tactic(auto)]

ghost use Rattle.std.specs.Prelude.{◌≡◌, ◌*◌, ◌%◌, ◌≤◌, ◌<◌};
ghost use Rattle.integers.specs.Divide.{modulo};
ghost use Rattle.model.specs.Border.{constant, closest, folded, supply};
ghost use Rattle.stage_values.specs.Place.{offset_of};
ghost use Rattle.stage_values.specs.Stands.{border_is};
ghost use Rattle.places.specs.Supplied.{place_of};

use stage_values::Border;

// The index itself where it lies inside.
fn inside(n: usize, x: usize) -> Option<usize>
    requires { x ≤ 16384 }
    ensures { result ≡ place_of (supply constant n (offset_of x)) }
{
    let u = x.checked_sub(15)?;
    if u < n { Some(u) } else { None }
}

// The index itself, or the end of the axis that it lies beyond.
fn closest(n: usize, x: usize) -> usize
    requires { (1 ≤ n) × (x ≤ 16384) }
    ensures { result ≡ closest n (offset_of x) }
{
    x.saturating_sub(15).min(n - 1)
}

// Of the indices 0 to 2n - 1 the upper half runs back.
fn folded(n: usize, m: usize) -> usize
    requires { (n ≤ 8192) × (m < 2 * n) }
    ensures { result ≡ folded n m }
{
    if m < n { m } else { 2 * n - 1 - m }
}

// The same again every 2n. Within the first period nothing is divided, and on an axis of 15 or more no offset reaches past it.
fn repeated(n: usize, k: usize) -> usize
    requires { (1 ≤ n) × (n ≤ 8192) }
    ensures { result ≡ folded n (k % (2 * n)) }
{
    if k < 2 * n {
        folded(n, k)
    } else {
        folded(n, k % (2 * n))
    }
}

// Index -1 - k reads as k does.
fn mirrored(n: usize, x: usize) -> usize
    requires { (1 ≤ n) × (n ≤ 8192) × (x ≤ 16384) }
    ensures { result ≡ folded n (modulo (offset_of x) (2 * n)) }
{
    if x < 15 {
        repeated(n, 14 - x)
    } else {
        repeated(n, x - 15)
    }
}

// 15 (n - 1) is -15 and 15 n more, so the sum is x - 15 modulo n.
fn wrapped(n: usize, x: usize) -> usize
    requires { (1 ≤ n) × (n ≤ 8192) × (x ≤ 16384) }
    ensures { result ≡ modulo (offset_of x) n }
{
    (x + 15 * (n - 1)) % n
}

// The index, 0 to n - 1, that is supplied at place x of an axis; none where the border value is.
#[inline(always)]
pub fn place(border: Border, n: usize, x: usize) -> Option<usize>
    requires { (1 ≤ n) × (n ≤ 8192) × (x ≤ 16384) }
    ensures { result ≡ place_of (supply (border_is border) n (offset_of x)) }
{
    match border {
        Border::Constant => inside(n, x),
        Border::Nearest => Some(closest(n, x)),
        Border::Mirror => Some(mirrored(n, x)),
        Border::Wrap => Some(wrapped(n, x)),
    }
}
