// The tolerance from stage to stage, as `afterStage` of the model has it, on machine numbers.
#![tactic(auto)]

ghost use Rattle.std.specs.Prelude.{◌≡◌, ◌+◌, ◌*◌, ◌^◌, ◌≤◌, ◌<◌, min};
ghost use Rattle.integers.specs.Divide.{ceil_div};
ghost use Rattle.model.specs.Tolerance.{weighted_growth};

// a b / d rounded up. The bound keeps sums of quotients in range.
fn quotient_up(a: u64, b: u64, d: u64) -> u64
    requires { (a ≤ 2 ^ 36) × (b ≤ 2 ^ 26) × (0 < d) × (d ≤ 2 ^ 32) }
    ensures { (result ≡ ceil_div (a * b) d) × (result ≤ 2 ^ 62) }
{
    (a * b).div_ceil(d)
}

// Cut to 255 levels, beyond which no error goes.
fn cut(x: u64) -> u64
    ensures { result ≡ min x 16711680 }
{
    x.min(16711680)
}

// The tolerance so far, as a number of 65,536ths of a grey level.
#[derive(Clone, Copy)]
pub struct Tolerance {
    pub units: u64,
}

impl Tolerance {
    pub fn start() -> Self
        ensures { result.units ≡ 0 }
    {
        Tolerance { units: 0 }
    }

    // g1, g2 are 65,536 times the gains across and down, rounded up; n, m the numbers of rounded taps.
    pub fn after_weighted(self, g1: u64, g2: u64, n: usize, m: usize) -> Self
        requires { (self.units ≤ 16711680) × (g1 ≤ 2 ^ 18) × (g2 ≤ 2 ^ 18) × (n ≤ 31) × (m ≤ 31) }
        ensures { (result.units ≡ min (weighted_growth g1 g2 n m self.units) 16711680) × (result.units ≤ 16711680) }
    {
        let before = quotient_up(g1 * g2, self.units, 4294967296);
        let across = quotient_up(g2, 255 * n as u64 + 512, 65536);
        let down = quotient_up(m as u64, 255 * g1 + 255 * n as u64 + 512, 65536);
        let units = cut(before + across + down + 32768);
        Tolerance { units }
    }

    pub fn after_box(self) -> Self
        requires { self.units ≤ 16711680 }
        ensures { (result.units ≡ min (self.units + 32768) 16711680) × (result.units ≤ 16711680) }
    {
        let units = cut(self.units + 32768);
        Tolerance { units }
    }

    pub fn after_rank(self) -> Self
        requires { self.units ≤ 16711680 }
        ensures { (result.units ≡ min self.units 16711680) × (result.units ≤ 16711680) }
    {
        let units = cut(self.units);
        Tolerance { units }
    }

    pub fn after_outline(self) -> Self
        requires { self.units ≤ 16711680 }
        ensures { (result.units ≡ min (6 * self.units) 16711680) × (result.units ≤ 16711680) }
    {
        let units = cut(6 * self.units);
        Tolerance { units }
    }
}
