// What an action costs in durability.
ghost use Rattle.std.specs.Prelude.{◌≡◌};
ghost use Rattle.action.specs.Wear.{wear_of};

// Free under an active trained perfection, half rounded down under either waste not.
pub fn calc_durability_cost(
    base_cost: u32,
    perfection: bool,
    waste_not: u8,
    waste_not_ii: u8,
) -> u32
    ensures { result ≡ wear_of base_cost perfection waste_not waste_not_ii }
{
    if perfection {
        return 0;
    }
    if waste_not > 0 || waste_not_ii > 0 {
        return base_cost / 2;
    }
    base_cost
}
