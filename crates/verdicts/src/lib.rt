// A verdict on a still that was filtered elsewhere: its samples are held against the exact result of one stage on the raw still. Nothing of the filter's own,
// rounded results is looked at.
#![tactic(auto)]

ghost use Rattle.std.specs.Prelude.{◌≡◌, ◌≤◌, length};
ghost use Rattle.recipe.specs.Recipe.{recipe_stages};
ghost use Rattle.verdict_answers.specs.VerdictAnswer.{all_near};
ghost use Rattle.exact_stages.specs.Fits.{Fits};
ghost use Rattle.verdicts.specs.Compares.{Compares};
ghost use Rattle.verdicts.specs.GivesVerdict.{GivesVerdict};

use near_rows::Channel;
use refusals::Refusal;

// Whether each received sample of all channels is near enough. Each channel of the raw raster is taken into the front of `work`.
fn all_near(
    recipe: &[u8],
    w: usize,
    h: usize,
    channels: usize,
    raw: &[u8],
    received: &[u8],
    c: u64,
    work: &mut [u8],
) -> bool
    requires { Fits recipe.now × Compares w h channels (length raw.now) (length received.now) (length work.old) × (c ≤ 255) }
    ensures { result ≡ all_near c w h channels (recipe_stages recipe.now) raw.now received.now }
{
    let n = w * h;
    for k in 0..channels {
        channels::take_channel(raw, n, channels, k, work);
        let channel = Channel { channels, index: k };
        if !exact_stages::channel_near(recipe, w, h, &work[..n], received, channel, c) {
            return false;
        }
    }
    true
}

// Whether each sample of a received still lies within `distance` levels of the exact result of a recipe of one stage on the raw still.
pub fn verdict(
    recipe: &[u8],
    raw: &[u8],
    received: &[u8],
    distance: u64,
    work: &mut [u8],
) -> Result<bool, Refusal>
    ensures { GivesVerdict distance recipe.now raw.now received.now work.old work.new result }
{
    let plan = verdict_answers::planned(distance, recipe, raw, received, work.len())?;
    Ok(all_near(
        recipe,
        plan.width,
        plan.height,
        plan.channels,
        &raw[plan.raw..],
        &received[plan.received..],
        distance,
        work,
    ))
}
