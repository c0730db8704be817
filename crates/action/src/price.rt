// What an action costs in points, by the combo that it continues.
ghost use Rattle.std.specs.Prelude.{◌≡◌};
ghost use Rattle.action.specs.Actions.{StandardTouch as StandardTouch_action, AdvancedTouch as AdvancedTouch_action};
ghost use Rattle.action.specs.Price.{discounted_by, price_of, charged_of, affordable};

use super::{ADVANCED_TOUCH, STANDARD_TOUCH};

// The combo that a state holds: the action before, where it opens one.
#[derive(Clone, Copy, Debug, PartialEq, Eq)]
pub enum Combo {
    BasicTouch,
    StandardTouch,
    RefinedTouch,
    Observe,
}

const DISCOUNT_PRICE: u32 = 18;

// Without a branch: no machine foresees the combo.
fn discounted(n: u8, combo: Option<Combo>) -> bool
    ensures { result ≡ discounted_by n combo }
{
    let standard = matches!(combo, Some(Combo::BasicTouch));
    let advanced = matches!(combo, Some(Combo::StandardTouch | Combo::Observe));
    ((n == STANDARD_TOUCH) & standard) | ((n == ADVANCED_TOUCH) & advanced)
}

pub fn calc_cp_cost(n: u8, combo: Option<Combo>, base_cost: u32) -> u32
    ensures { result ≡ price_of n combo base_cost }
{
    if discounted(n, combo) {
        return DISCOUNT_PRICE;
    }
    base_cost
}

// The price charged, of an action that has one.
pub fn charged(n: u8, combo: Option<Combo>, cost: Option<u32>) -> Option<u32>
    ensures { result ≡ charged_of n combo cost }
{
    let Some(base_cost) = cost else {
        return None;
    };
    Some(calc_cp_cost(n, combo, base_cost))
}

// So many points are enough for a price. No cost counts 0.
pub fn can_pay(points: u32, price: Option<u32>) -> bool
    ensures { result ≡ affordable points price }
{
    let Some(cost) = price else {
        return true;
    };
    cost <= points
}
