// What is tested of two stills, their recipes and what is lent for both, before the first sample is filtered.
#![tactic(auto)]

ghost use Rattle.std.specs.Prelude.{◌≡◌, ◌∷◌, ◌++◌, Ok};
ghost use Rattle.refusals.specs.declared.Refusal.TheVariants.{SizesDiffer};
ghost use Rattle.refusals.specs.Refusal.{verdict};
ghost use Rattle.recipe.specs.Recipe.{recipe_stages};
ghost use Rattle.filter_answers.specs.FileAnswer.{Asked, lent_tests};
ghost use Rattle.movement.specs.Order.{same_size};
ghost use Rattle.movement_answers.specs.Run.{run};
ghost use Rattle.movement_answers.specs.Plan.{plan_of};

use answers::Filtered;
use refusals::Refusal;
use room::Lent;

// Two pictures of one size: how many samples each has, how long the file of each is, and the tolerance of each.
#[derive(Clone, Copy)]
pub struct Pair {
    pub samples: usize,
    pub len: usize,
    pub tolerance1: u64,
    pub tolerance2: u64,
}

// The tests behind each run's own: the sizes, and what is lent.
fn pair_tests(
    recipe1: &[u8],
    first: Filtered,
    lent1: Lent,
    recipe2: &[u8],
    second: Filtered,
    lent2: Lent,
) -> Result<(), Refusal>
    requires { Asked recipe1.now (Ok first) × Asked recipe2.now (Ok second) }
    ensures { result ≡ verdict ((same_size (Ok first) (Ok second), SizesDiffer) ∷ lent_tests (recipe_stages recipe1.now) lent1 (Ok first) ++ lent_tests (recipe_stages recipe2.now) lent2 (Ok second)) }
{
    if (first.width, first.height, first.channels)
        != (second.width, second.height, second.channels)
    {
        return Err(Refusal::SizesDiffer);
    }
    filter_answers::lent_tests(recipe1, Ok(first), lent1)?;
    filter_answers::lent_tests(recipe2, Ok(second), lent2)
}

// What two runs come to under a limit: the tests in their order.
pub fn planned(
    limit: u64,
    recipe1: &[u8],
    still1: &[u8],
    recipe2: &[u8],
    still2: &[u8],
    lent1: Lent,
    lent2: Lent,
) -> Result<Pair, Refusal>
    ensures { result ≡ plan_of limit (run recipe1.now still1.now lent1) (run recipe2.now still2.now lent2) }
{
    if 255 < limit {
        return Err(Refusal::MovementLimit);
    }
    let first = filter_answers::picture_answer(recipe1, still1, filter_answers::ARCHIVE)?;
    let second = filter_answers::picture_answer(recipe2, still2, filter_answers::ARCHIVE)?;
    pair_tests(recipe1, first, lent1, recipe2, second, lent2)?;
    Ok(Pair {
        samples: first.width * first.height * first.channels,
        len: first.len,
        tolerance1: first.tolerance,
        tolerance2: second.tolerance,
    })
}
