// Two stills filtered one after the other, and the samples that were written counted.
#![tactic(auto)]

ghost use Rattle.std.specs.Prelude.{◌≡◌, length};
ghost use Rattle.movement_runs.specs.RunsBoth.{run_on, Countable, counts_in, RunsBoth};

use answers::Movement;
use movement_answers::Pair;

// Counts the samples of two written files, whose rasters end them.
fn counted(limit: u64, pair: Pair, out1: &[u8], out2: &[u8]) -> Movement
    requires { Countable limit pair (length out1.now) (length out2.now) }
    ensures { result ≡ counts_in limit pair out1.now out2.now }
{
    let len = pair.len;
    let start = len - pair.samples;
    let counts = motion_counts::count_motions(
        &out1[start..len],
        &out2[start..len],
        limit,
        pair.tolerance1,
        pair.tolerance2,
    );
    Movement {
        moved: counts.moved,
        still: counts.still,
        open: counts.open,
        tolerance1: pair.tolerance1,
        tolerance2: pair.tolerance2,
        len,
    }
}

// Two runs of the file call, the second over the work buffers of the first, and what they wrote counted.
pub fn run(
    recipe1: &[u8],
    still1: &[u8],
    recipe2: &[u8],
    still2: &[u8],
    limit: u64,
    pair: Pair,
    work: &mut [u8],
    rows: &mut [i32],
    sums: &mut [u32],
    out1: &mut [u8],
    out2: &mut [u8],
) -> Movement
    requires { Countable limit pair (length out1.old) (length out2.old) }
    ensures { RunsBoth limit (run_on recipe1.now still1.now work.old rows.old sums.old out1.old) (run_on recipe2.now still2.now work.old rows.old sums.old out2.old) pair out1.old out1.new out2.old out2.new result }
{
    // What each call answers is known: the plan of the pair has every test in it.
    let _ = file_filter::filter_file(
        recipe1,
        still1,
        filter_answers::ARCHIVE,
        work,
        rows,
        sums,
        out1,
    );
    let _ = file_filter::filter_file(
        recipe2,
        still2,
        filter_answers::ARCHIVE,
        work,
        rows,
        sums,
        out2,
    );
    counted(limit, pair, out1, out2)
}
