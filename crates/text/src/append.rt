// The append, of bytes and of one byte. A writer is lent a room and a place in it, and answers the place after: a struct that held the room would ask each
// writer for one clause more, that it still is the caller's, and there is no heap that it could own.
ghost use Rattle.std.specs.Prelude.{[], ◌∷◌, ◌+◌, ◌≤◌, ◌<◌, length};
ghost use Rattle.text.specs.Over.{Put};

// Stores all of text in out from place at on, and answers the place after it.
pub fn put(out: &mut [u8], at: usize, text: &[u8]) -> usize
    requires { at + length text.now ≤ length out.old }
    ensures { Put out.old at text.now result out.new }
{
    let end = at + text.len();
    out[at..end].copy_from_slice(text);
    end
}

// Stores one byte.
#[tactic(auto, unfolding(crate::specs::Over::over))]
pub fn put_byte(out: &mut [u8], at: usize, b: u8) -> usize
    requires { at < length out.old }
    ensures { Put out.old at (b ∷ []) result out.new }
{
    out[at] = b;
    at + 1
}
