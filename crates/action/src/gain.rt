// What an action adds to progress and quality.
ghost use Rattle.std.specs.Prelude.{◌≡◌, cond, ◌≤◌, ltb};
ghost use Rattle.action.specs.Gain.{multiplier_of, efficiency_of, progress_gain_of, touch_gain_of, quality_gain_of, Touchable};
ghost use Rattle.action.specs.Limits.{factor_most, progress_most, quality_most, quiet_most, gain_most};

use super::{BYREGOTS_BLESSING, TRAINED_EYE};

// So much more while a buff lasts.
fn extra(buff: u8, more: u64) -> u64
    ensures { (result ≡ cond (ltb 0 buff) more 0) × (result ≤ more) }
{
    if buff > 0 {
        return more;
    }
    0
}

// In hundredths: a half more under the one buff, the whole again under the other.
fn multiplier(half: u8, whole: u8) -> u64
    ensures { (result ≡ multiplier_of half whole) × (result ≤ 250) }
{
    100 + extra(half, 50) + extra(whole, 100)
}

pub fn calc_progress_increase(base: u32, efficiency: u32, veneration: u8, muscle_memory: u8) -> u32
    requires { (base ≤ factor_most) × (efficiency ≤ progress_most) }
    ensures { (result ≡ progress_gain_of base efficiency veneration muscle_memory) × (result ≤ gain_most) }
{
    let m = multiplier(veneration, muscle_memory);
    (base as u64 * efficiency as u64 * m / 10000) as u32
}

// ByregotsBlessing has an efficiency of its own.
fn efficiency_of(n: u8, efficiency: u32, inner_quiet: u8) -> u32
    requires { (efficiency ≤ quality_most) × (inner_quiet ≤ quiet_most) }
    ensures { (result ≡ efficiency_of n efficiency inner_quiet) × (result ≤ quality_most) }
{
    if n == BYREGOTS_BLESSING {
        return 100 + 20 * inner_quiet as u32;
    }
    efficiency
}

fn touch_increase(
    base: u32,
    efficiency: u32,
    inner_quiet: u8,
    innovation: u8,
    great_strides: u8,
) -> u32
    requires { (base ≤ factor_most) × (efficiency ≤ quality_most) × (inner_quiet ≤ quiet_most) }
    ensures { (result ≡ touch_gain_of base efficiency inner_quiet innovation great_strides) × (result ≤ gain_most) }
{
    let m = multiplier(innovation, great_strides);
    let quiet = 100 + 10 * inner_quiet as u64;
    (base as u64 * efficiency as u64 * quiet * m / 1000000) as u32
}

// TrainedEye adds what is missing.
pub fn calc_quality_increase(
    n: u8,
    missing: u32,
    base: u32,
    efficiency: u32,
    inner_quiet: u8,
    innovation: u8,
    great_strides: u8,
) -> u32
    requires { Touchable missing base efficiency inner_quiet }
    ensures { (result ≡ quality_gain_of n missing base efficiency inner_quiet innovation great_strides) × (result ≤ gain_most) }
{
    if n == TRAINED_EYE {
        return missing;
    }
    let own = efficiency_of(n, efficiency, inner_quiet);
    touch_increase(base, own, inner_quiet, innovation, great_strides)
}
