// The calls on a background with their answers told: what is held is four numbers that are updated.
#![tactic(auto)]

ghost use Rattle.std.specs.Prelude.{length};
ghost use Rattle.background.specs.Change.{addition, removal};
ghost use Rattle.background.specs.Memory.{background_in};
ghost use Rattle.told.specs.Numbers.{held_in};
ghost use Rattle.told_background.specs.Calls.{ChangesBackground, MeansStills};

// Add a still to a background, with its number and its T: what is held is updated.
pub fn add(
    still: &[u8],
    number: u32,
    tolerance: u32,
    rasters: &mut [u8],
    labels: &mut [u32],
    held: &mut [u64; 4],
) -> u32
    ensures { ChangesBackground (addition still.now number tolerance (length rasters.old) (length labels.old) (background_in (held_in held.old) rasters.old labels.old)) rasters.old rasters.new labels.old labels.new held.old held.new result }
{
    let holds = told::held(held);
    told::tell(
        background_additions::add_still(holds, still, number, tolerance, rasters, labels),
        held,
    )
}

// Remove the still of a number from a background: what is held is updated.
pub fn remove(number: u32, rasters: &mut [u8], labels: &mut [u32], held: &mut [u64; 4]) -> u32
    ensures { ChangesBackground (removal number (length rasters.old) (length labels.old) (background_in (held_in held.old) rasters.old labels.old)) rasters.old rasters.new labels.old labels.new held.old held.new result }
{
    let holds = told::held(held);
    told::tell(
        background_removals::remove_still(holds, number, rasters, labels),
        held,
    )
}

// The mean of a background: of how many stills, T and the output's length.
pub fn mean(
    rasters: &[u8],
    labels: &[u32],
    held: &[u64; 4],
    out: &mut [u8],
    res: &mut [u64; 3],
) -> u32
    ensures { MeansStills (background_in (held_in held.now) rasters.now labels.now) rasters.now labels.now out.old out.new res.old res.new result }
{
    let holds = told::held(held);
    told::tell(
        background_mean::mean_still(holds, rasters, labels, out),
        res,
    )
}
