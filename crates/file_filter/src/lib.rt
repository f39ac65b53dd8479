// Filter a file: each channel of a still by itself.
#![tactic(auto)]

ghost use Rattle.std.specs.Prelude.{◌≡◌, ◌++◌, ◌-◌, ◌*◌, ◌≤◌, length, drop};
ghost use Rattle.header_writer.specs.Heading.{header_bytes};
ghost use Rattle.recipe.specs.Recipe.{recipe_stages};
ghost use Rattle.room.specs.Room.{Sufficient};
ghost use Rattle.filter_answers.specs.FileAnswer.{file_size};
ghost use Rattle.raster_filter.specs.FilteredRaster.{filtered_raster};
ghost use Rattle.file_filter.specs.FiltersFile.{FiltersFile};

use answers::Filtered;
use filter_answers::Limits;
use refusals::Refusal;
use room::Lent;

// The header, and after it the filtered raster. A still's raster is what ends it.
fn run(
    recipe: &[u8],
    w: usize,
    h: usize,
    channels: usize,
    still: &[u8],
    work: &mut [u8],
    rows: &mut [i32],
    sums: &mut [u32],
    out: &mut [u8],
)
    requires { Sufficient w h recipe.now (length work.old) (length rows.old) (length sums.old) × (1 ≤ channels) × (channels ≤ 3) × (w * h * channels ≤ length still.now) × (file_size w h channels ≤ length out.old) }
    ensures { out.new ≡ header_bytes w h channels ++ (filtered_raster w h channels (recipe_stages recipe.now) (drop (length still.now - w * h * channels) still.now) ++ drop (file_size w h channels) out.old) }
{
    let start = still.len() - w * h * channels;
    let len = header_writer::put_header(w, h, channels, out);
    raster_filter::filter_raster(
        recipe,
        w,
        h,
        channels,
        &still[start..],
        work,
        rows,
        sums,
        &mut out[len..],
    );
}

// Filter a file for a caller with limits: the picture's size, T and how many bytes were written, or the recipe's refusal, 28, the still's, 29, or 20.
pub fn filter_file(
    recipe: &[u8],
    still: &[u8],
    limits: Limits,
    work: &mut [u8],
    rows: &mut [i32],
    sums: &mut [u32],
    out: &mut [u8],
) -> Result<Filtered, Refusal>
    ensures { FiltersFile limits recipe.now still.now work.old work.new rows.old rows.new sums.old sums.new out.old out.new result }
{
    let lent = Lent::of(work, rows, sums, out);
    let answer = filter_answers::file_answer(recipe, still, limits, lent)?;
    run(
        recipe,
        answer.width,
        answer.height,
        answer.channels,
        still,
        work,
        rows,
        sums,
        out,
    );
    Ok(answer)
}
