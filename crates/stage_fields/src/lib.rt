// The kinds of stages, and the tests of the fields that stages share: the three header bytes, radii, and a position. The first takes a stage's bytes, the others what follows the header bytes.
#![tactic(auto)]

ghost use Rattle.std.specs.Prelude.{◌≡◌, ◌+◌, ◌<◌, leb};
ghost use Rattle.refusals.specs.Refusal.{verdict};
ghost use Rattle.recipe_bytes.specs.Bytes.{at, field};
ghost use Rattle.stage_fields.specs.StageFields.{head_tests, radius_tests, position_tests};
ghost use Rattle.stage_fields.specs.Kind.{KindOf};

use recipe_bytes::{byte_at, word_at};
use refusals::Refusal;

// What a stage is, each with its number in a recipe: two kinds of weights, and four others.
#[derive(Clone, Copy, Debug, PartialEq, Eq)]
pub enum Kind {
    Ratios = 1,
    Reals = 2,
    Binomial = 3,
    Box = 4,
    Rank = 5,
    Outline = 6,
}

impl TryFrom<u8> for Kind {
    type Error = Refusal;

    ghost try_from_gives = { KindOf };

    fn try_from(number: u8) -> Result<Kind, Refusal> {
        match number {
            1 => Ok(Kind::Ratios),
            2 => Ok(Kind::Reals),
            3 => Ok(Kind::Binomial),
            4 => Ok(Kind::Box),
            5 => Ok(Kind::Rank),
            6 => Ok(Kind::Outline),
            _ => Err(Refusal::Kind),
        }
    }
}

// Kind, border and border value.
pub fn head(part: &[u8]) -> Result<(), Refusal>
    ensures { result ≡ verdict (head_tests part.now) }
{
    Kind::try_from(byte_at(part, 0)?)?;
    let border = byte_at(part, 1)?;
    if 3 < border {
        return Err(Refusal::Kind);
    }
    let value = byte_at(part, 2)?;
    if border != 0 && value != 0 {
        return Err(Refusal::Kind);
    }
    Ok(())
}

// The radius at byte k.
#[tactic(auto, using(recipe_bytes::proofs::ByteLaws::byte_read, recipe_bytes::proofs::ByteLaws::field_read))]
fn radius_at(part: &[u8], k: usize) -> Result<(), Refusal>
    requires { k < 2 }
    ensures { result ≡ verdict (field part.now (k + 1) (leb (at part.now k) 15) Refusal.Count) }
{
    if 15 < byte_at(part, k)? {
        return Err(Refusal::Count);
    }
    Ok(())
}

// Two radii.
pub fn radii(part: &[u8]) -> Result<(), Refusal>
    ensures { result ≡ verdict (radius_tests part.now) }
{
    radius_at(part, 0)?;
    radius_at(part, 1)
}

// The position, after two radii.
#[tactic(auto, unfolding(crate::specs::StageFields::position_tests, refusals::specs::Refusal::verdict, recipe_bytes::specs::Bytes::there, model::specs::Window::area))]
pub fn position(part: &[u8]) -> Result<(), Refusal>
    ensures { result ≡ verdict (position_tests part.now) }
{
    if part.len() < 4 {
        return Err(Refusal::Cut);
    }
    let p = word_at(part, 2);
    let area = (2 * usize::from(part[0]) + 1) * (2 * usize::from(part[1]) + 1);
    if p < 1 || area < p {
        return Err(Refusal::Position);
    }
    Ok(())
}
