// Which sides and channels a picture may have.
#![tactic(auto)]

ghost use Rattle.std.specs.Prelude.{◌≡◌};
ghost use Rattle.picture_sizes.specs.PictureSize.{is_side, is_channels};

// Whether a width or a height is one that a still may have.
#[tactic(auto, unfolding(crate::specs::PictureSize::is_side))]
pub fn is_side(n: usize) -> bool
    ensures { result ≡ is_side n }
{
    (1..=8192).contains(&n)
}

// Grey or RGB.
#[tactic(auto, unfolding(crate::specs::PictureSize::is_channels))]
pub fn is_channels(n: usize) -> bool
    ensures { result ≡ is_channels n }
{
    matches!(n, 1 | 3)
}
