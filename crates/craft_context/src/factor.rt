// The base factors of progress and quality, worked out in f32 as craft_context.rs does.
ghost use Rattle.std.specs.Prelude.{◌≡◌, ◌≤◌};
ghost use Rattle.action.specs.Limits.{factor_most};
ghost use Rattle.craft_context.specs.Factor.{base_of, scaled_of, factor_of};
ghost use Rattle.craft_context.specs.inner.Factor.{Bounded};

use std::num;

// What a factor is worked out from, inside its limits.
#[derive(Clone, Copy)]
pub struct Factor {
    pub stat: u32,
    pub div: u32,
    // 2 for progress, 35 for quality.
    pub plus: u32,
    // In hundredths.
    pub modifier: u32,
    // The player's level is at most the recipe's: then the modifier counts.
    pub scaled: bool,
    ghost bounded: { Bounded stat div plus modifier },
}

impl Factor {
    // stat * 10 over div, and plus.
    fn base(self) -> f32
        ensures { result ≡ base_of self.stat self.div self.plus }
    {
        num::nearest_u32_to_f32(self.stat * 10) / num::nearest_u32_to_f32(self.div)
            + num::nearest_u32_to_f32(self.plus)
    }

    fn exact(self) -> f32
        ensures { result ≡ scaled_of self.stat self.div self.plus self.modifier self.scaled }
    {
        let whole = self.base();
        if self.scaled {
            return whole * (num::nearest_u32_to_f32(self.modifier) / 100.0);
        }
        whole
    }

    pub fn truncated(self) -> u32
        ensures { (result ≡ factor_of self.stat self.div self.plus self.modifier self.scaled) × (result ≤ factor_most) }
    {
        num::truncating_f32_to_u64(self.exact()) as u32
    }
}
