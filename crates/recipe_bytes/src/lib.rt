// The numbers in a recipe's bytes, the highest byte first.
#![tactic(auto)]

ghost use Rattle.std.specs.Prelude.{◌≡◌, ◌+◌, ◌*◌, ◌%◌, ◌^◌, ◌≤◌, ◌<◌, length, pos, nat_abs, ◌+ℤ◌};
ghost use Rattle.recipe_bytes.specs.Bytes.{byte_at, word, signed8, signed16, bits};

use refusals::Refusal;

// The byte at place k, where the recipe is that long.
#[tactic(auto, using(std::proofs::lemmas::Option::gets), unfolding(crate::specs::Bytes::there, crate::specs::Bytes::byte_at))]
pub fn byte_at(part: &[u8], k: usize) -> Result<u8, Refusal>
    ensures { result ≡ byte_at k part.now }
{
    part.get(k).copied().ok_or(Refusal::Cut)
}

// The unsigned 16-bit number at place k.
#[tactic(auto, unfolding(crate::specs::Bytes::word))]
pub fn word_at(part: &[u8], k: usize) -> usize
    requires { k + 2 ≤ length part.now }
    ensures { (result ≡ word part.now k) × (result < 65536) }
{
    usize::from(u16::from_be_bytes([part[k], part[k + 1]]))
}

// The signed 16-bit number at place k.
pub fn ratio_at(part: &[u8], k: usize) -> i64
    requires { k + 2 ≤ length part.now }
    ensures { (result ≡ signed16 (word part.now k)) × (nat_abs result ≤ 2 ^ 37) }
{
    i64::from(i16::from_be_bytes([part[k], part[k + 1]]))
}

// An offset's byte, 128 too large: 113 to 143 for -15 to 15.
pub fn raised_offset(b: u8) -> usize
    ensures { (pos result ≡ signed8 b +ℤ pos 128) × (result ≡ (b + 128) % 256) × (result < 256) }
{
    usize::from(b.wrapping_add(128))
}

// The binary32 pattern at place k.
#[tactic(auto, unfolding(crate::specs::Bytes::bits))]
pub fn bits_at(part: &[u8], k: usize) -> u32
    requires { k + 4 ≤ length part.now }
    ensures { result ≡ bits part.now k }
{
    weights::real_bits(part[k], part[k + 1], part[k + 2], part[k + 3])
}
