// The gain of a kernel, tested.
#![tactic(auto)]

ghost use Rattle.std.specs.Prelude.{◌≡◌, [], ◌∷◌};
ghost use Rattle.refusals.specs.Refusal.{verdict};
ghost use Rattle.kernels.specs.Kernel.{kernel_of};
ghost use Rattle.gain_tests.specs.Gain.{gain_test};
ghost use Rattle.gain_tests.specs.Kept.{Kept};

use kernels::Kernel;
use refusals::Refusal;

// Whether the gain of a kernel is at most 4.
pub fn gain(k: Kernel) -> Result<(), Refusal>
    requires { Kept k.values k.len k.divisor }
    ensures { result ≡ verdict (gain_test (kernel_of k.divisor k.offsets k.values k.len) ∷ []) }
{
    if 4 * k.divisor < numerators::magnitude(&k.values, k.len) {
        return Err(Refusal::Gain);
    }
    Ok(())
}
