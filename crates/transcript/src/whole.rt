// The whole text.
ghost use Rattle.std.specs.Prelude.{◌≤◌, length};
ghost use Rattle.refusal.specs.Judge.{size_most};
ghost use Rattle.text.specs.Over.{Put};
ghost use Rattle.action.specs.Known.{known_front};
ghost use Rattle.craft_context.specs.Limits.{ContextIn};
ghost use Rattle.transcript.specs.Transcript.{transcript_of, transcript_most};

use super::last::put_last;
use super::rows::{put_row, put_rows};
use craft_context::CraftContext;
use craft_state::Craft;
use moves::Mode;

// In bytes: a row at the start and after each of 255 actions, and the last line, fit in these.
pub const TRANSCRIPT_MOST: usize = 32768;

// The list is replayed, and then its executed part once more, a row to each state.
pub fn put_transcript(context: CraftContext, list: &[u8], out: &mut [u8]) -> usize
    requires { ContextIn context × (length list.now ≤ known_front list.now) × (length list.now ≤ size_most) × (transcript_most ≤ length out.old) }
    ensures { Put out.old 0 (transcript_of context list.now) result out.new }
{
    let replay = simulator::execute_actions(context, Mode::PLAIN, list);
    let executed = replay.executed;
    let result = replay.result;
    let state = craft_state::fresh(context);
    let rows = put_row(context, state, out, 0);
    let start = Craft { context, state };
    let last = put_rows(start, &list[..executed], out, rows);
    put_last(result, executed as u32, list.len() as u32, out, last)
}
