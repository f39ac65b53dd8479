// The tests of all fields of a stage of weights: sizes, and then offsets and weights of both axes, in byte order.
#![tactic(auto)]

ghost use Rattle.std.specs.Prelude.{◌≡◌, drop};
ghost use Rattle.refusals.specs.Refusal.{verdict};
ghost use Rattle.axis_fields.specs.AxisFields.{size_tests};
ghost use Rattle.tap_fields.specs.TapFields.{tap_tests};

use refusals::Refusal;

// What is left of a part from place k on: nothing from a place past its end.
fn from(part: &[u8], k: usize) -> &[u8]
    ensures { result.now ≡ drop k part.now }
{
    &part[k.min(part.len())..]
}

// The offsets and weights of both axes, after sizes that pass.
fn arrays(part: &[u8], real: bool) -> Result<(), Refusal>
    requires { verdict (size_tests real part.now) ≡ Ok tt }
    ensures { result ≡ verdict (tap_tests real part.now) }
{
    let n = usize::from(part[0]);
    let m = usize::from(part[1]);
    let o = axis_fields::sizes_length(real);
    axis_fields::offsets(from(part, o), n)?;
    axis_fields::offsets(from(part, o + n), m)?;
    axis_fields::weights_of(from(part, o + (n + m)), real, n + m)
}

// All fields of a stage of weights.
pub fn fields(part: &[u8], real: bool) -> Result<(), Refusal>
    ensures { result ≡ verdict (tap_tests real part.now) }
{
    axis_fields::sizes(part, real)?;
    arrays(part, real)
}
