// Filters a raster: each channel by itself.
#![tactic(auto)]

ghost use Rattle.std.specs.Prelude.{◌≡◌, ◌++◌, ◌*◌, ◌≤◌, length, drop};
ghost use Rattle.recipe.specs.Recipe.{recipe_stages};
ghost use Rattle.room.specs.Room.{Sufficient};
ghost use Rattle.raster_filter.specs.FilteredRaster.{filtered_raster};

// Each channel of a raster out of it, through the stages, and into its places of the output.
pub fn filter_raster(
    recipe: &[u8],
    w: usize,
    h: usize,
    channels: usize,
    raster: &[u8],
    work: &mut [u8],
    rows: &mut [i32],
    sums: &mut [u32],
    out: &mut [u8],
)
    requires { Sufficient w h recipe.now (length work.old) (length rows.old) (length sums.old) × (1 ≤ channels) × (channels ≤ 3) × (w * h * channels ≤ length raster.now) × (w * h * channels ≤ length out.old) }
    ensures { out.new ≡ filtered_raster w h channels (recipe_stages recipe.now) raster.now ++ drop (w * h * channels) out.old }
{
    let n = w * h;
    for c in 0..channels {
        channels::take_channel(raster, n, channels, c, work);
        stages::run_stages(recipe, w, h, work, rows, sums);
        channels::put_channel(work, n, channels, c, out);
    }
}
