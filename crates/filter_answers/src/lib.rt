// What the two filtering calls answer, by the numbers and the bytes that they are given.
#![tactic(auto)]

ghost use Rattle.std.specs.Prelude.{◌≡◌, ◌≤◌, Ok};
ghost use Rattle.refusals.specs.Refusal.{verdict};
ghost use Rattle.still_reader.specs.Read.{still_of};
ghost use Rattle.recipe.specs.Recipe.{recipe_tests, recipe_stages};
ghost use Rattle.filter_answers.specs.PlaneAnswer.{plane_tests, plane_answer};
ghost use Rattle.filter_answers.specs.FileAnswer.{file_size, still_answer, picture_answer, Asked, lent_tests, file_answer};

use answers::Filtered;
use refusals::Refusal;
use room::Lent;

// The limits of a caller: how many stages a recipe may have, and how many samples a plane of a still.
#[derive(Clone, Copy)]
pub struct Limits {
    pub stages: usize,
    pub samples: usize,
}

// The archive's, and those of every call that takes none: no recipe that is accepted has more stages, and no still that is read more samples.
pub const ARCHIVE: Limits = Limits {
    stages: 8,
    samples: 67108864,
};

// The bedside panel's: the conformance program runs its vectors with them, and shows that they are those of the definitions.
pub const PANEL: Limits = Limits {
    stages: 4,
    samples: 8192,
};

// The tests after the recipe's, of an accepted recipe.
fn plane_tests(recipe: &[u8], w: usize, h: usize, samples: usize, lent: Lent) -> Result<(), Refusal>
    requires { verdict (recipe_tests recipe.now) ≡ Ok tt }
    ensures { result ≡ verdict (plane_tests recipe.now w h samples lent) }
{
    if recipe[0] != 1 {
        return Err(Refusal::Count);
    }
    if !picture_sizes::is_side(w) || !picture_sizes::is_side(h) {
        return Err(Refusal::Side);
    }
    let size = w * h;
    if samples < size {
        return Err(Refusal::RasterShort);
    }
    if size < samples {
        return Err(Refusal::RasterLong);
    }
    room::tests(recipe, w, h, size, lent)
}

// What a call with these numbers answers: T.
pub fn plane_answer(
    bytes: &[u8],
    w: usize,
    h: usize,
    samples: usize,
    lent: Lent,
) -> Result<u64, Refusal>
    ensures { result ≡ plane_answer bytes.now w h samples lent }
{
    let tolerance = recipe::read_recipe(bytes)?.tolerance;
    plane_tests(bytes, w, h, samples, lent)?;
    Ok(tolerance)
}

// How many bytes the file of such a picture has: its header's, and one for each sample.
pub fn file_size(width: usize, height: usize, channels: usize) -> usize
    requires { (width ≤ 8192) × (height ≤ 8192) × (channels ≤ 3) }
    ensures { result ≡ file_size width height channels }
{
    let head = header_writer::header(width, height, channels);
    head.len() + width * height * channels
}

// The answer to a still by a recipe with this tolerance, whatever is lent.
fn still_answer(tolerance: u64, still: &[u8], limits: Limits) -> Result<Filtered, Refusal>
    ensures { result ≡ still_answer limits tolerance (still_of still.now) }
{
    let picture = still_reader::read_still(still)?;
    if limits.samples < picture.width * picture.height {
        return Err(Refusal::SampleLimit);
    }
    Ok(Filtered {
        width: picture.width,
        height: picture.height,
        channels: picture.channels,
        tolerance,
        len: file_size(picture.width, picture.height, picture.channels),
    })
}

// The answer to a recipe and a still, whatever is lent.
pub fn picture_answer(bytes: &[u8], still: &[u8], limits: Limits) -> Result<Filtered, Refusal>
    ensures { result ≡ picture_answer limits bytes.now still.now }
{
    let recipe = recipe::read_recipe(bytes)?;
    if limits.stages < usize::from(recipe.count) {
        return Err(Refusal::StageLimit);
    }
    still_answer(recipe.tolerance, still, limits)
}

// The tests of the lent buffers for such an answer: a refusal asks for none of them.
pub fn lent_tests(
    recipe: &[u8],
    answer: Result<Filtered, Refusal>,
    lent: Lent,
) -> Result<(), Refusal>
    requires { Asked recipe.now answer }
    ensures { result ≡ verdict (lent_tests (recipe_stages recipe.now) lent answer) }
{
    match answer {
        Err(_) => Ok(()),
        Ok(picture) => room::tests(recipe, picture.width, picture.height, picture.len, lent),
    }
}

// What a call with these limits and buffers answers.
pub fn file_answer(
    recipe: &[u8],
    still: &[u8],
    limits: Limits,
    lent: Lent,
) -> Result<Filtered, Refusal>
    ensures { result ≡ file_answer limits recipe.now still.now lent }
{
    let picture = picture_answer(recipe, still, limits)?;
    lent_tests(recipe, Ok(picture), lent)?;
    Ok(picture)
}
