// The file call with the buffers that the program lends.
#![tactic(auto)]

ghost use Rattle.program_filter.specs.Program.{FiltersStill};

use answers::Filtered;
use refusals::Refusal;

// Filters a still into the output's front. What is lent besides is the program's own.
pub fn filter_still(recipe: &[u8], still: &[u8], out: &mut [u8; 65536]) -> Result<Filtered, Refusal>
    ensures { FiltersStill recipe.now still.now out.new result }
{
    let mut work = [0u8; 32768];
    let mut rows = [0i32; 16384];
    let mut sums = [0u32; 16384];
    file_filter::filter_file(
        recipe,
        still,
        filter_answers::ARCHIVE,
        &mut work,
        &mut rows,
        &mut sums,
        out,
    )
}
