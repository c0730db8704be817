// A list of actions read from text.
ghost use Rattle.std.specs.Prelude.{◌≡◌, ◌≤◌, length};
ghost use Rattle.text.specs.Over.{over, Put};
ghost use Rattle.rotation.specs.Words.{actions_in};
ghost use Rattle.rotation.specs.inner.Counted.{counted_of, leading_in};

use super::words::Words;

// How many words a text has, or where its first unknown word starts.
#[tactic(auto, using(crate::proofs::Rules::reading))]
pub fn count(text: &[u8]) -> Result<usize, usize>
    ensures { (result ≡ counted_of text.now) × (length (actions_in text.now) ≤ length text.now) }
{
    let mut k = 0;
    for word in Words::new(text) {
        word?;
        k += 1;
    }
    Ok(k)
}

// Both at once, where there is a place for each byte of the text: its actions are stored up to the first unknown word.
#[tactic(auto, using(crate::proofs::Rules::reading))]
pub fn read_words(text: &[u8], out: &mut [u8]) -> Result<usize, usize>
    requires { length text.now ≤ length out.old }
    ensures { (result ≡ counted_of text.now) × (out.new ≡ over out.old 0 (leading_in text.now)) }
{
    let mut k = 0;
    for word in Words::new(text) {
        out[k] = word?;
        k += 1;
    }
    Ok(k)
}

// Stores the actions that a text's words name.
#[tactic(auto, using(crate::proofs::Rules::reading))]
pub fn put_words(text: &[u8], out: &mut [u8]) -> usize
    requires { length (actions_in text.now) ≤ length out.old }
    ensures { Put out.old 0 (actions_in text.now) result out.new }
{
    let mut k = 0;
    for word in Words::new(text) {
        if let Ok(n) = word {
            out[k] = n;
            k += 1;
        }
    }
    k
}
