// A recipe's stages, one after the other, on a plane in lent memory.
#![tactic(auto)]

ghost use Rattle.std.specs.Prelude.{◌≡◌, ◌*◌, length, take};
ghost use Rattle.model.specs.Stage.{written};
ghost use Rattle.recipe.specs.Recipe.{recipe_stages};
ghost use Rattle.room.specs.Room.{Sufficient};

// All stages of a recipe, on the plane at the front of `work`.
pub fn run_stages(
    bytes: &[u8],
    w: usize,
    h: usize,
    work: &mut [u8],
    rows: &mut [i32],
    sums: &mut [u32],
)
    requires { Sufficient w h bytes.now (length work.old) (length rows.old) (length sums.old) }
    ensures { take (h * w) work.new ≡ written w h (recipe_stages bytes.now) (take (h * w) work.old) }
{
    let mut rest = &bytes[1..];
    for _ in 0..bytes[0] {
        let stage = recipe_stages::read_stage(rest);
        one_stage::run_stage(stage, w, h, work, rows, sums);
        rest = &rest[recipe_stages::stage_length(rest)..];
    }
}
