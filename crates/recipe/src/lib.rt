// Reads a recipe: how many stages it has, and its tolerance.
#![tactic(auto)]

ghost use Rattle.std.specs.Prelude.{◌≡◌, ◌≤◌};
ghost use Rattle.model.specs.Stage as Model;
ghost use Rattle.model.specs.Tolerance.{after_stage};
ghost use Rattle.stage_values.specs.Stands.{Stands};
ghost use Rattle.recipe.specs.Recipe.{recipe_of};

use answers::Recipe;
use recipe_bytes::byte_at;
use refusals::Refusal;
use stage_values::{Stage, Work};
use tolerance::Tolerance;

// The tolerance after one more stage.
#[inline(always)]
fn after(total: Tolerance, s: Stage) -> Tolerance
    requires { (total.units ≤ 16711680) × ((t : Model.Stage) × Stands s t) }
    ensures { (result.units ≤ 16711680) × ((t : Model.Stage) → Stands s t → result.units ≡ after_stage total.units t) }
{
    match s.work {
        Work::Weighted => total.after_weighted(
            s.across.gain,
            s.down.gain,
            s.across.rounded,
            s.down.rounded,
        ),
        Work::Boxed(_) => total.after_box(),
        Work::Ranked(_) => total.after_rank(),
        Work::Outlined => total.after_outline(),
    }
}

// Read a recipe: how many stages it has, and T.
pub fn read_recipe(recipe: &[u8]) -> Result<Recipe, Refusal>
    ensures { result ≡ recipe_of recipe.now }
{
    let count = byte_at(recipe, 0)?;
    if count < 1 || 8 < count {
        return Err(Refusal::StageCount);
    }
    let mut at = 1;
    let mut total = Tolerance::start();
    for _ in 0..count {
        let part = &recipe[at..];
        recipe_stages::tests(part)?;
        total = after(total, recipe_stages::read_stage(part));
        at += recipe_stages::stage_length(part);
    }
    if at < recipe.len() {
        return Err(Refusal::Trailing);
    }
    let tolerance = total.units;
    Ok(Recipe { count, tolerance })
}
