// The lines of the states on the way.
ghost use Rattle.std.specs.Prelude.{◌+◌, ◌*◌, ◌≤◌, length};
ghost use Rattle.text.specs.Over.{Put};
ghost use Rattle.transcript.specs.Transcript.{row_of, row_most, rows_of};
ghost use Rattle.transcript.specs.inner.Played.{Played};

use craft_context::CraftContext;
use craft_state::{Craft, CraftState};
use step::Candidate;

// A state's line, and byte 10.
pub fn put_row(context: CraftContext, state: CraftState, out: &mut [u8], at: usize) -> usize
    requires { at + row_most ≤ length out.old }
    ensures { Put out.old at (row_of context state) result out.new × (result ≤ at + row_most) }
{
    let end = craft_state::put_line(context, state, out, at);
    text::put_byte(out, end, b'\n')
}

// A row after each action of a part whose actions are each legal where they stand.
pub fn put_rows(start: Craft, part: &[u8], out: &mut [u8], at: usize) -> usize
    requires { Played start.context start.state part.now × (at + row_most * length part.now ≤ length out.old) }
    ensures { Put out.old at (rows_of start.context start.state part.now) result out.new × (result ≤ at + row_most * length part.now) }
{
    let context = start.context;
    let mut state = start.state;
    let mut end = at;
    for &n in part {
        let row = action::attributes_of(n);
        state = step::execute(context, state, Candidate { n, row });
        end = put_row(context, state, out, end);
    }
    end
}
