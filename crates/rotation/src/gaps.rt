// The bytes that part words, and where the next of them and the next between them stands.
ghost use Rattle.std.specs.Prelude.{◌≡◌, not, position};
ghost use Rattle.rotation.specs.Gaps.{gap};

const TAB: u8 = 9;

pub const NEWLINE: u8 = 10;

const RETURN: u8 = 13;

const SPACE: u8 = 32;

#[tactic(auto, unfolding(crate::specs::Gaps::gap))]
fn is_gap(b: u8) -> bool
    ensures { result ≡ gap b }
{
    (b == TAB) | (b == NEWLINE) | (b == RETURN) | (b == SPACE)
}

pub fn first_letter(text: &[u8]) -> Option<usize>
    ensures { result ≡ position (λ b. not (gap b)) text.now }
{
    text.iter().position(|b| !is_gap(*b))
}

pub fn first_gap(text: &[u8]) -> Option<usize>
    ensures { result ≡ position gap text.now }
{
    text.iter().position(|b| is_gap(*b))
}
