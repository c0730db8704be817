// Text into lent room: all of it, or refusal 6 and nothing.
ghost use Rattle.crafty.specs.Room.{Fits};

use refusal::Refusal;

// How many bytes were written.
pub fn write(text: &[u8], out: &mut [u8]) -> Result<usize, Refusal>
    ensures { Fits text.now out.old result out.new }
{
    refusal::check_room(out.len(), text.len())?;
    Ok(text::put(out, 0, text))
}
