// How long a macro waits for an action, in seconds.
ghost use Rattle.std.specs.Prelude.{◌≡◌, ◌≤◌};
ghost use Rattle.action.specs.Wait.{wait_of};

use super::table::Attributes;

const BUFF: u8 = 2;

const OTHER: u8 = 3;

// A buff has none of progress, quality and durability, which is not 0 of them.
pub fn wait(row: Attributes) -> u8
    ensures { (result ≡ wait_of row) × (result ≤ 3) }
{
    if row.progress_efficiency.is_some()
        || row.quality_efficiency.is_some()
        || row.durability_cost.is_some()
    {
        return OTHER;
    }
    BUFF
}
