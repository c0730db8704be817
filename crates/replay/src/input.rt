// Standard input, read to its end. Where a read fails the input does not end: it is judged as a whole or not at all.
ghost use Rattle.std.specs.Prelude.{◌≡◌, length};
ghost use Rattle.replay.specs.Input.{room, Ended};

use compare_lines::block;
use refusal::SIZE_MOST;
use std::io;
use std::io::Read;

// One byte more than an input may have, so that a longer one is seen to be.
pub const ROOM: usize = SIZE_MOST + 1;

// Reads until a read fails, the input ends or the room is full: such an input is too long, whatever comes after it.
pub fn read<R: Read>(from: &mut R, input: &mut [u8]) -> io::Result<usize>
    requires { length input.old ≡ room }
    ensures { Ended result (R.remaining from.new) (length input.new) }
{
    block::fill(from, input)
}
