// The input of the programs, block by block.
ghost use Rattle.std.specs.Prelude.{◌≡◌, ℕ, ◌+◌, ◌^◌, ◌<◌, ◌≤◌, length, take, IfOk, IfErr};
ghost use Rattle.std.specs.Io.KnownBytes.{Consumes, IsAtEnd};
ghost use Rattle.compare_lines.specs.Reading.{after_read};

use std::io;
use std::io::Read;

// Where the reading stands after a read that began at a place of the block: none at the input's end, and an error only where the read failed.
#[tactic(auto, unfolding(crate::specs::Reading::after_read))]
fn after(at: usize, read: io::Result<usize>) -> io::Result<Option<usize>>
    requires { IfOk read (λ n. at + n < 2 ^ 64) }
    ensures { result ≡ after_read at read }
{
    match read {
        Ok(0) => Ok(None),
        Ok(n) => Ok(Some(at + n)),
        Err(e) => Err(e),
    }
}

// Reads until the block is full or the input ends, and answers how many bytes it read.
pub fn fill<R: Read>(input: &mut R, block: &mut [u8]) -> io::Result<usize>
    ensures fits { IfOk result (λ n. n ≤ length block.new) }
    ensures bytes { IfOk result (λ n. Consumes (R.remaining input.old) (R.remaining input.new) (take n block.new)) }
    // What was read before a read that failed stands at the front of the block.
    ensures failed { IfErr result (λ _. (k : ℕ) × (k ≤ length block.new) × Consumes (R.remaining input.old) (R.remaining input.new) (take k block.new)) }
    ensures end { IfOk result (λ n. n < length block.new → IsAtEnd (R.remaining input.new)) }
{
    let mut got = 0;
    // A range that is never gone through: a `for` needs no measure, and an input has none.
    for _ in 0..u64::MAX {
        if got >= block.len() {
            break;
        }
        let read = input.read(&mut block[got..]);
        let Some(next) = after(got, read)? else {
            break;
        };
        got = next;
    }
    Ok(got)
}
