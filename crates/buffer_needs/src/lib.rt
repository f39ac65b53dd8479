// What a run of `filter_file` must be lent, how many bytes it writes and its tolerance, from a still's header and a recipe.
#![tactic(auto)]

ghost use Rattle.std.specs.Prelude.{◌≡◌};
ghost use Rattle.buffer_needs.specs.NeedsAnswer.{needs_answer};

use answers::Needs;
use refusals::Refusal;

// What must be lent, the output's length and T; or the recipe's refusal, or the header's, 1 to 4. What follows the header is not tested.
pub fn needs(bytes: &[u8], still: &[u8]) -> Result<Needs, Refusal>
    ensures { result ≡ needs_answer bytes.now still.now }
{
    let recipe = recipe::read_recipe(bytes)?;
    let head = still_reader::read_head(still)?;
    let size = filter_answers::file_size(head.width, head.height, head.channels);
    let need = room::needs(bytes, head.width, head.height, size);
    Ok(Needs {
        works: need.works,
        rows: need.rows,
        sums: need.sums,
        out: need.out,
        tolerance: recipe.tolerance,
    })
}
