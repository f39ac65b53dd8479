// What must be lent for a recipe's stages, and whether what is lent suffices.
#![tactic(auto)]

ghost use Rattle.std.specs.Prelude.{◌≡◌, ◌≤◌, Ok, length};
ghost use Rattle.refusals.specs.Refusal.{verdict};
ghost use Rattle.recipe.specs.Recipe.{recipe_tests, recipe_stages};
ghost use Rattle.table_sizes.specs.Needs.{sum_need};
ghost use Rattle.room.specs.Room.{lent, needs, room_tests};

use refusals::Refusal;

// How long the lent buffers are: work bytes, row values, sums, output.
#[derive(Clone, Copy)]
pub struct Lent {
    pub works: usize,
    pub rows: usize,
    pub sums: usize,
    pub out: usize,
}

impl Lent {
    // How long these are.
    pub fn of(work: &[u8], rows: &[i32], sums: &[u32], out: &[u8]) -> Lent
        ensures { result ≡ lent (length work.now) (length rows.now) (length sums.now) (length out.now) }
    {
        Lent {
            works: work.len(),
            rows: rows.len(),
            sums: sums.len(),
            out: out.len(),
        }
    }
}

// How many sums must be lent for the box stages of a recipe.
fn sum_need(bytes: &[u8], w: usize) -> usize
    requires { (w ≤ 8192) × (verdict (recipe_tests bytes.now) ≡ Ok tt) }
    ensures { result ≡ sum_need w (recipe_stages bytes.now) }
{
    let mut need = 0;
    let mut rest = &bytes[1..];
    for _ in 0..bytes[0] {
        let stage = recipe_stages::read_stage(rest);
        need = table_sizes::work_sums(stage, w).max(need);
        rest = &rest[recipe_stages::stage_length(rest)..];
    }
    need
}

// What must be lent for an output of `size` bytes.
pub fn needs(recipe: &[u8], w: usize, h: usize, size: usize) -> Lent
    requires { (w ≤ 8192) × (h ≤ 8192) × (verdict (recipe_tests recipe.now) ≡ Ok tt) }
    ensures { result ≡ needs w h (recipe_stages recipe.now) size }
{
    Lent {
        works: 2 * (w * h),
        rows: w * (h + 30),
        sums: sum_need(recipe, w),
        out: size,
    }
}

// The tests of the lent buffers, for an output of `size` bytes.
pub fn tests(recipe: &[u8], w: usize, h: usize, size: usize, lent: Lent) -> Result<(), Refusal>
    requires { (w ≤ 8192) × (h ≤ 8192) × (verdict (recipe_tests recipe.now) ≡ Ok tt) }
    ensures { result ≡ verdict (room_tests w h (recipe_stages recipe.now) size lent) }
{
    let need = needs(recipe, w, h, size);
    if lent.works < need.works
        || lent.rows < need.rows
        || lent.sums < need.sums
        || lent.out < need.out
    {
        return Err(Refusal::Room);
    }
    Ok(())
}
