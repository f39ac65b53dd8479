// The tests of the fields of an axis of weights: sizes, offsets, weights. Each takes a part that begins with its first field.
#![tactic(auto)]

ghost use Rattle.std.specs.Prelude.{◌≡◌, ◌+◌, ◌≤◌, ◌<◌, leb};
ghost use Rattle.refusals.specs.Refusal.{verdict};
ghost use Rattle.recipe_bytes.specs.Bytes.{at, word, field};
ghost use Rattle.axis_fields.specs.AxisFields.{is_count, sizes_length, size_tests, axis_tests, real_tests, weight_length, weight_tests};

use recipe_bytes::{bits_at, byte_at, raised_offset, word_at};
use refusals::Refusal;

// A count of taps at byte k.
#[tactic(auto, using(recipe_bytes::proofs::ByteLaws::byte_read, recipe_bytes::proofs::ByteLaws::field_read), unfolding(crate::specs::AxisFields::is_count))]
fn count_at(part: &[u8], k: usize) -> Result<(), Refusal>
    requires { k < 8192 }
    ensures { result ≡ verdict (field part.now (k + 1) (is_count (at part.now k)) Refusal.Count) }
{
    match byte_at(part, k)? {
        1..=31 => Ok(()),
        _ => Err(Refusal::Count),
    }
}

// A divisor of two bytes from byte k on.
#[tactic(auto, unfolding(refusals::specs::Refusal::verdict, recipe_bytes::specs::Bytes::there))]
fn divisor_at(part: &[u8], k: usize) -> Result<(), Refusal>
    requires { k < 8192 }
    ensures { result ≡ verdict (field part.now (k + 2) (leb 1 (word part.now k)) Refusal.Count) }
{
    if part.len() < k + 2 {
        return Err(Refusal::Cut);
    }
    if word_at(part, k) == 0 {
        return Err(Refusal::Count);
    }
    Ok(())
}

// How many bytes the sizes take.
#[tactic(auto, unfolding(crate::specs::AxisFields::sizes_length))]
pub fn sizes_length(real: bool) -> usize
    ensures { (result ≡ sizes_length real) × (result ≤ 6) }
{
    if real { 2 } else { 6 }
}

// The sizes of a stage of weights: reals have no divisors.
pub fn sizes(part: &[u8], real: bool) -> Result<(), Refusal>
    ensures { result ≡ verdict (size_tests real part.now) }
{
    count_at(part, 0)?;
    count_at(part, 1)?;
    if real {
        return Ok(());
    }
    divisor_at(part, 2)?;
    divisor_at(part, 4)
}

// The offsets of one axis.
pub fn offsets(part: &[u8], n: usize) -> Result<(), Refusal>
    ensures { result ≡ verdict (axis_tests n part.now) }
{
    let mut least = 113;
    for i in 0..n {
        let o = raised_offset(byte_at(part, i)?);
        if o < least || 143 < o {
            return Err(Refusal::Offset);
        }
        least = o + 1;
    }
    Ok(())
}

// The weights of a stage of reals.
fn reals(part: &[u8], n: usize) -> Result<(), Refusal>
    requires { n ≤ 62 }
    ensures { result ≡ verdict (real_tests n part.now) }
{
    for i in 0..n {
        if part.len() < 4 * i + 4 {
            return Err(Refusal::Cut);
        }
        if !weights::is_real_weight(bits_at(part, 4 * i)) {
            return Err(Refusal::RealWeight);
        }
    }
    Ok(())
}

// How many bytes a weight has.
#[tactic(auto, unfolding(crate::specs::AxisFields::weight_length))]
pub fn weight_length(real: bool) -> usize
    ensures { result ≡ weight_length real }
{
    if real { 4 } else { 2 }
}

// The weights of either kind of stage.
#[tactic(auto, unfolding(crate::specs::AxisFields::weight_tests, refusals::specs::Refusal::verdict, recipe_bytes::specs::Bytes::there))]
pub fn weights_of(part: &[u8], real: bool, n: usize) -> Result<(), Refusal>
    requires { n ≤ 62 }
    ensures { result ≡ verdict (weight_tests real n part.now) }
{
    if real {
        return reals(part, n);
    }
    if part.len() < 2 * n {
        return Err(Refusal::Cut);
    }
    Ok(())
}
