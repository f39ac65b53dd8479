// The mean of a background.
#![tactic(auto)]

ghost use Rattle.std.specs.Prelude.{◌≡◌, ◌+◌, ◌*◌, ◌≤◌, min, length, get_or};
ghost use Rattle.lists.specs.Tabulate.{tabulate};
ghost use Rattle.model.specs.Outline.{largest};
ghost use Rattle.background.specs.Mean.{mean_answer};
ghost use Rattle.background.specs.Memory.{background_in, Means};

use answers::{Held, Mean};
use refusals::Refusal;

// The largest T plus half a level, at most 255 levels. The sum needs more than 32 bits.
fn mean_tolerance(labels: &[u32], count: usize) -> u64
    requires { 2 * count ≤ length labels.now }
    ensures { result ≡ min (largest (tabulate (λ i. get_or labels.now (2 * i + 1) 0) count) + 32768) 16711680 }
{
    (u64::from(background_slots::largest_tolerance(labels, count)) + 32768).min(16711680)
}

// What the mean of these stills answers.
fn mean_answer(
    held: Held,
    rasters: &[u8],
    labels: &[u32],
    out: usize,
) -> Result<Option<Mean>, Refusal>
    ensures { result ≡ mean_answer (length rasters.now) (length labels.now) out (background_in held rasters.now labels.now) }
{
    if held.count == 0 {
        return Ok(None);
    }
    if !background_slots::held_room(held, rasters.len(), labels.len()) {
        return Err(Refusal::Room);
    }
    let len = background_slots::raster_size(held);
    if out < len {
        return Err(Refusal::Room);
    }
    Ok(Some(Mean {
        stills: held.count,
        tolerance: mean_tolerance(labels, held.count),
        len,
    }))
}

// The mean of the stills held: of how many, its T and its length; or that none are held, or refusal 20.
pub fn mean_still(
    held: Held,
    rasters: &[u8],
    labels: &[u32],
    out: &mut [u8],
) -> Result<Option<Mean>, Refusal>
    ensures { Means (background_in held rasters.now labels.now) rasters.now labels.now out.old out.new result }
{
    let answer = mean_answer(held, rasters, labels, out.len())?;
    if let Some(mean) = answer {
        raster_means::mean_raster(rasters, mean.len, mean.stills, out);
    }
    Ok(answer)
}
