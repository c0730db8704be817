// A draw, which names a member of a set.
ghost use Rattle.std.specs.Prelude.{◌≡◌, drop};
ghost use Rattle.rollout.specs.Draws.{drawn_of};

use action_set::bits::Bits;
use refusal::Refusal;

// Refusals 19 and 20: no draw is left at that place, or it is not below the set's size.
pub fn draw(set: Bits, draws: &[u8], at: usize) -> Result<u8, Refusal>
    ensures { result ≡ drawn_of set.bits (drop at draws.now) }
{
    let n = *draws.get(at).ok_or(Refusal::NoDraw)?;
    if n as u32 >= set.size() {
        return Err(Refusal::DrawTooHigh);
    }
    Ok(set.nth(n))
}
