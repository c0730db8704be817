// The replay program, as functions from bytes to bytes.
ghost use Rattle.std.specs.Prelude.{◌≡◌, ◌+◌, ◌≤◌, length};
ghost use Rattle.refusal.specs.Judge.{size_most};
ghost use Rattle.text.specs.Over.{over};
ghost use Rattle.rotation.specs.inner.Counted.{leading_in};
ghost use Rattle.craft_context.specs.Limits.{ContextIn};
ghost use Rattle.transcript.specs.Transcript.{transcript_most};
ghost use Rattle.crafty.specs.Room.{Fits};
ghost use Rattle.crafty.specs.Program.{ReplaysText, refused_text_of, Prints};
ghost use Rattle.crafty.specs.inner.Program.{RendersWords, Renders};

use super::room::write;
use craft_context::CraftContext;
use refusal::{Refusal, SIZE_MOST};
use transcript::TRANSCRIPT_MOST;

// The word, ten digits at most, and a newline.
const REFUSED_MOST: usize = 19;

// Words of at most so many bytes are read into a room of this size: one for all that an input can hold takes longer to clear than a short list to replay.
const SHORT: usize = 1024;

// A list of words, before which `base` bytes of the input stand, read into one room, and its replay in a context rendered into another.
// A `match`: in a `map_err` the sum of the offset would need a clause that it fits.
fn render_list(
    context: CraftContext,
    words: &[u8],
    base: usize,
    list: &mut [u8],
    room: &mut [u8],
) -> Result<usize, Refusal>
    requires { ContextIn context × (base + length words.now ≤ size_most) × (length words.now ≤ length list.old) × (transcript_most ≤ length room.old) }
    ensures { (list.new ≡ over list.old 0 (leading_in words.now)) × RendersWords context base words.now room.old result room.new }
{
    match rotation::read_words(words, list) {
        Ok(k) => Ok(transcript::put_transcript(context, &list[..k], room)),
        Err(offset) => Err(Refusal::UnknownWord(base + offset)),
    }
}

// The same with a room of its own for the list.
fn render_words(
    context: CraftContext,
    words: &[u8],
    base: usize,
    room: &mut [u8],
) -> Result<usize, Refusal>
    requires { ContextIn context × (base + length words.now ≤ size_most) × (transcript_most ≤ length room.old) }
    ensures { RendersWords context base words.now room.old result room.new }
{
    if words.len() <= SHORT {
        let mut list = [0u8; SHORT];
        return render_list(context, words, base, &mut list, room);
    }
    let mut list = [0u8; SIZE_MOST];
    render_list(context, words, base, &mut list, room)
}

// The whole input, replayed into a room that is always enough.
fn render(input: &[u8], room: &mut [u8]) -> Result<usize, Refusal>
    requires { transcript_most ≤ length room.old }
    ensures { Renders input.now room.old result room.new }
{
    refusal::check_size(input.len())?;
    let end = context_line::line_end(input);
    if end >= input.len() {
        return Err(Refusal::MalformedLine);
    }
    let context = context_line::read(&input[..end])?;
    render_words(context, &input[end + 1..], end + 1, room)
}

// The whole program: a context's line and a list, and what their replay prints. A room that is always enough is rendered into as it is lent.
pub fn replay_text(input: &[u8], out: &mut [u8]) -> Result<usize, Refusal>
    ensures { ReplaysText input.now out.old result out.new }
{
    if out.len() >= TRANSCRIPT_MOST {
        return render(input, out);
    }
    let mut room = [0u8; TRANSCRIPT_MOST];
    let k = render(input, &mut room)?;
    write(&room[..k], out)
}

fn write_refused(x: Refusal, out: &mut [u8]) -> Result<usize, Refusal>
    ensures { Fits (refused_text_of x) out.old result out.new }
{
    let report = x.reported();
    let mut room = [0u8; REFUSED_MOST];
    let number = text::put(&mut room, 0, b"refused ");
    let end = text::put_number(&mut room, number, u32::from(report.0), 0);
    let k = text::put_byte(&mut room, end, b'\n');
    write(&room[..k], out)
}

// What the program prints for every input: the replay, or the number of a refusal.
pub fn replay_output(input: &[u8], out: &mut [u8]) -> Result<usize, Refusal>
    ensures { Prints input.now out.old result out.new }
{
    let mut room = [0u8; TRANSCRIPT_MOST];
    match render(input, &mut room) {
        Ok(k) => write(&room[..k], out),
        Err(x) => write_refused(x, out),
    }
}
