// A list of actions written as text: each name and a newline.
ghost use Rattle.std.specs.Prelude.{◌≡◌, ◌+◌, ◌≤◌, ◌<◌, length};
ghost use Rattle.refusal.specs.Judge.{size_most};
ghost use Rattle.text.specs.Over.{Put};
ghost use Rattle.action.specs.Known.{actions, known_front};
ghost use Rattle.rotation.specs.Lines.{line_of, list_text_of};
ghost use Rattle.rotation.specs.inner.Lines.{name_line_most};

use super::gaps::NEWLINE;
use action::Text;

#[tactic(auto, using(crate::proofs::Rules::writing))]
fn put_line(n: u8, out: &mut [u8], at: usize) -> usize
    requires { (n < actions) × (at + length (line_of n) ≤ length out.old) }
    ensures { Put out.old at (line_of n) result out.new }
{
    let end = action::put_text(Text::Name, n, out, at);
    text::put_byte(out, end, NEWLINE)
}

const LINE_MOST: usize = 25;

// The length of a name's line, which is put into a room of its own: none is longer.
#[tactic(auto, using(crate::proofs::Rules::writing))]
fn line_len(n: u8) -> usize
    requires { n < actions }
    ensures { (result ≡ length (line_of n)) × (result ≤ name_line_most) }
{
    let mut room = [0u8; LINE_MOST];
    put_line(n, &mut room, 0)
}

// The length of a list's text.
#[tactic(auto, using(crate::proofs::Rules::writing))]
pub fn measure(list: &[u8]) -> usize
    requires { (length list.now ≤ known_front list.now) × (length list.now ≤ size_most) }
    ensures { result ≡ length (list_text_of list.now) }
{
    let mut need: usize = 0;
    for n in list {
        need += line_len(*n);
    }
    need
}

pub fn put_list(list: &[u8], out: &mut [u8]) -> usize
    requires { (length list.now ≤ known_front list.now) × (length (list_text_of list.now) ≤ length out.old) }
    ensures { Put out.old 0 (list_text_of list.now) result out.new }
{
    let mut at = 0;
    for n in list {
        at = put_line(*n, out, at);
    }
    at
}
