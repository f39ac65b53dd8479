// Filter a plane, with a single stage.
#![tactic(auto)]

ghost use Rattle.std.specs.Prelude.{◌≡◌, ◌++◌, ◌*◌, ◌≤◌, length, drop};
ghost use Rattle.model.specs.Stage.{written};
ghost use Rattle.recipe.specs.Recipe.{recipe_stages};
ghost use Rattle.room.specs.Room.{Sufficient};
ghost use Rattle.plane_filter.specs.FiltersPlane.{FiltersPlane};

use refusals::Refusal;
use room::Lent;

// The plane into the work buffer, through the stages, and into the output.
fn run(
    recipe: &[u8],
    w: usize,
    h: usize,
    plane: &[u8],
    work: &mut [u8],
    rows: &mut [i32],
    sums: &mut [u32],
    out: &mut [u8],
)
    requires { Sufficient w h recipe.now (length work.old) (length rows.old) (length sums.old) × (length plane.now ≡ w * h) × (w * h ≤ length out.old) }
    ensures { out.new ≡ written w h (recipe_stages recipe.now) plane.now ++ drop (w * h) out.old }
{
    let n = w * h;
    buffers::copy_front(plane, work, n);
    stages::run_stages(recipe, w, h, work, rows, sums);
    buffers::copy_front(work, out, n);
}

// Filter a plane: T, or the recipe's refusal, 14, 3, 5, 6 or 20.
pub fn filter_plane(
    recipe: &[u8],
    w: usize,
    h: usize,
    plane: &[u8],
    work: &mut [u8],
    rows: &mut [i32],
    sums: &mut [u32],
    out: &mut [u8],
) -> Result<u64, Refusal>
    ensures { FiltersPlane recipe.now w h plane.now work.old work.new rows.old rows.new sums.old sums.new out.old out.new result }
{
    let lent = Lent::of(work, rows, sums, out);
    let tolerance = filter_answers::plane_answer(recipe, w, h, plane.len(), lent)?;
    run(recipe, w, h, plane, work, rows, sums, out);
    Ok(tolerance)
}
