// The calls for C and Rust. Each gives the refusal's number, or 0 and its numbers in a lent array. `capi_c` exports them.
#![tactic(auto)]

ghost use Rattle.std.specs.Prelude.{length};
ghost use Rattle.still_reader.specs.Read.{still_of};
ghost use Rattle.recipe.specs.Recipe.{recipe_of};
ghost use Rattle.buffer_needs.specs.NeedsAnswer.{needs_answer};
ghost use Rattle.filter_answers.specs.Limits.{limits, archive};
ghost use Rattle.background.specs.Change.{addition, removal};
ghost use Rattle.background.specs.Memory.{background_in};
ghost use Rattle.movement_runs.specs.RunsBoth.{run_on};
ghost use Rattle.told.specs.Numbers.{Tells, still_told, recipe_told, needs_told, held_in};
ghost use Rattle.capi.specs.Calls.{WritesStill, FiltersPlane, FiltersFile, CountsMovement};
ghost use Rattle.told_background.specs.Calls.{ChangesBackground, MeansStills};
ghost use Rattle.told_verdict.specs.Call.{GivesVerdict};

use filter_answers::Limits;

// Read a still: width, height, channels, and at which byte the raster begins.
pub fn hejslopi_read_still(bytes: &[u8], res: &mut [u64; 4]) -> u32
    ensures { Tells (still_told (still_of bytes.now)) res.old res.new result }
{
    told::tell(still_reader::read_still(bytes), res)
}

// Write a still: its length.
pub fn hejslopi_write_still(
    width: usize,
    height: usize,
    channels: usize,
    raster: &[u8],
    out: &mut [u8],
    res: &mut [u64; 1],
) -> u32
    ensures { WritesStill width height channels raster.now out.old out.new res.old res.new result }
{
    told::tell(
        still_writer::write_still(width, height, channels, raster, out),
        res,
    )
}

// Read a recipe: S and T.
pub fn hejslopi_read_recipe(bytes: &[u8], res: &mut [u64; 2]) -> u32
    ensures { Tells (recipe_told (recipe_of bytes.now)) res.old res.new result }
{
    told::tell(recipe::read_recipe(bytes), res)
}

// What must be lent to filter a still, from its header and a recipe: how many work bytes, row values and sums, the output's length, and T.
pub fn hejslopi_needs(recipe: &[u8], still: &[u8], res: &mut [u64; 5]) -> u32
    ensures { Tells (needs_told (needs_answer recipe.now still.now)) res.old res.new result }
{
    told::tell(buffer_needs::needs(recipe, still), res)
}

// Filter a plane, with a single stage: T.
pub fn hejslopi_filter_plane(
    recipe: &[u8],
    width: usize,
    height: usize,
    plane: &[u8],
    work: &mut [u8],
    rows: &mut [i32],
    sums: &mut [u32],
    out: &mut [u8],
    res: &mut [u64; 1],
) -> u32
    ensures { FiltersPlane recipe.now width height plane.now work.old work.new rows.old rows.new sums.old sums.new out.old out.new res.old res.new result }
{
    told::tell(
        plane_filter::filter_plane(recipe, width, height, plane, work, rows, sums, out),
        res,
    )
}

// Filter a file with limits on the stages and on the samples a plane: width, height, channels, T and the output's length.
pub fn hejslopi_filter_file_limited(
    recipe: &[u8],
    still: &[u8],
    stages: usize,
    samples: usize,
    work: &mut [u8],
    rows: &mut [i32],
    sums: &mut [u32],
    out: &mut [u8],
    res: &mut [u64; 5],
) -> u32
    ensures { FiltersFile (limits stages samples) recipe.now still.now work.old work.new rows.old rows.new sums.old sums.new out.old out.new res.old res.new result }
{
    told::tell(
        file_filter::filter_file(
            recipe,
            still,
            Limits { stages, samples },
            work,
            rows,
            sums,
            out,
        ),
        res,
    )
}

// Filter a file with the archive's limits: the same.
pub fn hejslopi_filter_file(
    recipe: &[u8],
    still: &[u8],
    work: &mut [u8],
    rows: &mut [i32],
    sums: &mut [u32],
    out: &mut [u8],
    res: &mut [u64; 5],
) -> u32
    ensures { FiltersFile archive recipe.now still.now work.old work.new rows.old rows.new sums.old sums.new out.old out.new res.old res.new result }
{
    let archive = filter_answers::ARCHIVE;
    hejslopi_filter_file_limited(
        recipe,
        still,
        archive.stages,
        archive.samples,
        work,
        rows,
        sums,
        out,
        res,
    )
}

// The movement between two stills: how many samples have moved, are still and are open, both T, and the length of each output.
pub fn hejslopi_movement(
    recipe1: &[u8],
    still1: &[u8],
    recipe2: &[u8],
    still2: &[u8],
    limit: u64,
    work: &mut [u8],
    rows: &mut [i32],
    sums: &mut [u32],
    out1: &mut [u8],
    out2: &mut [u8],
    res: &mut [u64; 6],
) -> u32
    ensures { CountsMovement limit (run_on recipe1.now still1.now work.old rows.old sums.old out1.old) (run_on recipe2.now still2.now work.old rows.old sums.old out2.old) work.old work.new rows.old rows.new sums.old sums.new out1.old out1.new out2.old out2.new res.old res.new result }
{
    told::tell(
        movement_filter::count_movement(
            recipe1, still1, recipe2, still2, limit, work, rows, sums, out1, out2,
        ),
        res,
    )
}

// Judge a still that was filtered elsewhere: 1 where each of its samples is near enough to the exact result on the raw one, 0 where one is not.
pub fn hejslopi_verdict(
    recipe: &[u8],
    raw: &[u8],
    received: &[u8],
    distance: u64,
    work: &mut [u8],
    res: &mut [u64; 1],
) -> u32
    ensures { GivesVerdict distance recipe.now raw.now received.now work.old work.new res.old res.new result }
{
    told_verdict::verdict(recipe, raw, received, distance, work, res)
}

// Add a still to a background, with its number and its T: what is held is updated.
pub fn hejslopi_background_add(
    still: &[u8],
    number: u32,
    tolerance: u32,
    rasters: &mut [u8],
    labels: &mut [u32],
    held: &mut [u64; 4],
) -> u32
    ensures { ChangesBackground (addition still.now number tolerance (length rasters.old) (length labels.old) (background_in (held_in held.old) rasters.old labels.old)) rasters.old rasters.new labels.old labels.new held.old held.new result }
{
    told_background::add(still, number, tolerance, rasters, labels, held)
}

// Remove the still of a number from a background: what is held is updated.
pub fn hejslopi_background_remove(
    number: u32,
    rasters: &mut [u8],
    labels: &mut [u32],
    held: &mut [u64; 4],
) -> u32
    ensures { ChangesBackground (removal number (length rasters.old) (length labels.old) (background_in (held_in held.old) rasters.old labels.old)) rasters.old rasters.new labels.old labels.new held.old held.new result }
{
    told_background::remove(number, rasters, labels, held)
}

// The mean of a background: of how many stills, T and the output's length.
pub fn hejslopi_background_mean(
    rasters: &[u8],
    labels: &[u32],
    held: &[u64; 4],
    out: &mut [u8],
    res: &mut [u64; 3],
) -> u32
    ensures { MeansStills (background_in (held_in held.now) rasters.now labels.now) rasters.now labels.now out.old out.new res.old res.new result }
{
    told_background::mean(rasters, labels, held, out, res)
}
