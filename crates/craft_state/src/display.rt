// The line of a state, as the Rust's Display writes it.
ghost use Rattle.std.specs.Prelude.{◌+◌, ◌≤◌, length};
ghost use Rattle.text.specs.Over.{Put};
ghost use Rattle.craft_state.specs.Line.{part_of, share_most, display_of, line_most};

use super::state::CraftState;
use craft_context::CraftContext;
use text::Decimal;

// What a line takes at most.
pub const LINE_MOST: usize = 126;

// A part of a most, right-aligned, and the unit.
fn put_share<T: Decimal>(
    out: &mut [u8],
    at: usize,
    part: T,
    most: T,
    width: usize,
    unit: &[u8],
) -> usize
    requires { (at + share_most + length unit.now ≤ length out.old) × (width ≤ 10) }
    ensures { Put out.old at (part_of width (T.text part) (T.text most) unit.now) result out.new × (result ≤ at + share_most + length unit.now) }
{
    let slash = text::put_number(out, at, part, width);
    let right = text::put_byte(out, slash, b'/');
    let end = text::put_number(out, right, most, width);
    text::put(out, end, unit)
}

pub fn put_line(context: CraftContext, state: CraftState, out: &mut [u8], at: usize) -> usize
    requires { at + line_most ≤ length out.old }
    ensures { Put out.old at (display_of context state) result out.new × (result ≤ at + line_most) }
{
    let quality = put_share(
        out,
        at,
        state.progress,
        context.progress_target,
        5,
        b" progress | ",
    );
    let durability = put_share(
        out,
        quality,
        state.quality,
        context.quality_target,
        5,
        b" quality | ",
    );
    let cp = put_share(
        out,
        durability,
        state.durability,
        context.durability_max,
        2,
        b" durability | ",
    );
    put_share(out, cp, state.cp, context.cp_max, 3, b" cp")
}
