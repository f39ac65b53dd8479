// What is tested of a verdict's distance, recipe, stills and work bytes, before the first sample is compared.
#![tactic(auto)]

ghost use Rattle.std.specs.Prelude.{◌≡◌, Ok};
ghost use Rattle.refusals.specs.Refusal.{verdict};
ghost use Rattle.still_reader.specs.Read.{still_of};
ghost use Rattle.recipe.specs.Recipe.{recipe_tests};
ghost use Rattle.verdict_answers.specs.Plan.{fit_stage, stills_plan, plan_of};

use refusals::Refusal;

// Two pictures of one size, with the places of their rasters.
#[derive(Clone, Copy)]
pub struct Comparison {
    pub width: usize,
    pub height: usize,
    pub channels: usize,
    pub raw: usize,
    pub received: usize,
}

// Whether an accepted recipe has one stage, of ratios, a box or a rank.
#[tactic(auto, using(std::proofs::lemmas::Bool::Decides::nat_tests), unfolding(crate::specs::Plan::fit_stage))]
fn fit_stage(recipe: &[u8]) -> bool
    requires { verdict (recipe_tests recipe.now) ≡ Ok tt }
    ensures { result ≡ fit_stage recipe.now }
{
    recipe[0] == 1 && matches!(recipe[1], 1 | 4 | 5)
}

// The tests of both stills, in their order.
fn stills(raw: &[u8], received: &[u8], works: usize) -> Result<Comparison, Refusal>
    ensures { result ≡ stills_plan works (still_of raw.now) (still_of received.now) }
{
    let first = still_reader::read_still(raw)?;
    let second = still_reader::read_still(received)?;
    if (first.width, first.height, first.channels)
        != (second.width, second.height, second.channels)
    {
        return Err(Refusal::ReceivedSize);
    }
    if works < first.width * first.height {
        return Err(Refusal::Room);
    }
    Ok(Comparison {
        width: first.width,
        height: first.height,
        channels: first.channels,
        raw: first.start,
        received: second.start,
    })
}

// What a verdict comes to: all tests in their order.
pub fn planned(
    distance: u64,
    recipe: &[u8],
    raw: &[u8],
    received: &[u8],
    works: usize,
) -> Result<Comparison, Refusal>
    ensures { result ≡ plan_of distance recipe.now raw.now received.now works }
{
    if 255 < distance {
        return Err(Refusal::DistanceLimit);
    }
    recipe::read_recipe(recipe)?;
    if !fit_stage(recipe) {
        return Err(Refusal::VerdictStage);
    }
    stills(raw, received, works)
}
