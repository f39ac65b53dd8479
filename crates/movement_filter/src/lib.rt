// The movement between two stills: both are filtered, and the samples that were written are compared.
#![tactic(auto)]

ghost use Rattle.std.specs.Prelude.{◌≡◌};
ghost use Rattle.room.specs.Room.{lent};
ghost use Rattle.movement_runs.specs.RunsBoth.{run_on};
ghost use Rattle.movement_filter.specs.CountsMovement.{CountsMovement};

use answers::Movement;
use refusals::Refusal;
use room::Lent;

// What is lent to a run: the work buffers, which are common, and an output of its own.
fn lent_to(works: usize, rows: usize, sums: usize, out: usize) -> Lent
    ensures { result ≡ lent works rows sums out }
{
    Lent {
        works,
        rows,
        sums,
        out,
    }
}

// How many samples have surely moved between two stills, each filtered by its own recipe, how many are surely still, and how many are open.
pub fn count_movement(
    recipe1: &[u8],
    still1: &[u8],
    recipe2: &[u8],
    still2: &[u8],
    limit: u64,
    work: &mut [u8],
    rows: &mut [i32],
    sums: &mut [u32],
    out1: &mut [u8],
    out2: &mut [u8],
) -> Result<Movement, Refusal>
    ensures { CountsMovement limit (run_on recipe1.now still1.now work.old rows.old sums.old out1.old) (run_on recipe2.now still2.now work.old rows.old sums.old out2.old) work.old work.new rows.old rows.new sums.old sums.new out1.old out1.new out2.old out2.new result }
{
    let lent1 = lent_to(work.len(), rows.len(), sums.len(), out1.len());
    let lent2 = lent_to(work.len(), rows.len(), sums.len(), out2.len());
    let pair = movement_answers::planned(limit, recipe1, still1, recipe2, still2, lent1, lent2)?;
    Ok(movement_runs::run(
        recipe1, still1, recipe2, still2, limit, pair, work, rows, sums, out1, out2,
    ))
}
