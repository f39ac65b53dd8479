// The verdict on a still that was filtered elsewhere with its answer told.
#![tactic(auto)]

ghost use Rattle.told_verdict.specs.Call.{GivesVerdict};

// Judge a received still: 1 where each of its samples lies within `distance` levels of the exact result on the raw one, 0 where one does not.
pub fn verdict(
    recipe: &[u8],
    raw: &[u8],
    received: &[u8],
    distance: u64,
    work: &mut [u8],
    res: &mut [u64; 1],
) -> u32
    ensures { GivesVerdict distance recipe.now raw.now received.now work.old work.new res.old res.new result }
{
    told::tell(
        verdicts::verdict(recipe, raw, received, distance, work),
        res,
    )
}
