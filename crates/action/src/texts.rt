// The texts of an action: its name, its label, and the line of a macro that uses it.
ghost use Rattle.std.specs.Prelude.{◌≡◌, ◌+◌, ◌≤◌, ◌<◌, length};
ghost use Rattle.laws.specs.Lists.{elem};
ghost use Rattle.text.specs.Over.{Put};
ghost use Rattle.action.specs.Known.{actions};
ghost use Rattle.action.specs.Names.{label_of, quoted_of, wait_text_of, macro_of, text_of};

use super::names::{put_label, put_name};
use super::table::attributes_of;
use super::waits::wait;

const LABEL_MOST: usize = 18;

// The text contains a space.
fn spaced(text: &[u8]) -> bool
    ensures { result ≡ elem text.now 32 }
{
    text.contains(&b' ')
}

// A label that contains a space stands in quotes.
fn put_quoted(label: &[u8], out: &mut [u8], at: usize) -> usize
    requires { at + length (quoted_of label.now) ≤ length out.old }
    ensures { Put out.old at (quoted_of label.now) result out.new }
{
    if spaced(label) {
        let quote = text::put_byte(out, at, b'"');
        let end = text::put(out, quote, label);
        return text::put_byte(out, end, b'"');
    }
    text::put(out, at, label)
}

fn put_quoted_label(n: u8, out: &mut [u8], at: usize) -> usize
    requires { (n < actions) × (at + length (quoted_of (label_of n)) ≤ length out.old) }
    ensures { Put out.old at (quoted_of (label_of n)) result out.new }
{
    let mut label = [0u8; LABEL_MOST];
    let k = put_label(n, &mut label, 0);
    put_quoted(&label[..k], out, at)
}

fn put_wait(n: u8, out: &mut [u8], at: usize) -> usize
    requires { at + 9 ≤ length out.old }
    ensures { Put out.old at (wait_text_of n) result out.new }
{
    let seconds = wait(attributes_of(n));
    let digit = text::put(out, at, b" <wait.");
    let end = text::put_byte(out, digit, b'0' + seconds);
    text::put_byte(out, end, b'>')
}

fn put_macro_text(n: u8, out: &mut [u8], at: usize) -> usize
    requires { (n < actions) × (at + length (macro_of n) ≤ length out.old) }
    ensures { Put out.old at (macro_of n) result out.new }
{
    let label = text::put(out, at, b"/ac ");
    let end = put_quoted_label(n, out, label);
    put_wait(n, out, end)
}

// Of the three: in bytes, no text is longer.
pub const TEXT_MOST: usize = 33;

// Which of the three, so that one statement serves three entries.
#[derive(Clone, Copy, Debug, PartialEq, Eq)]
pub enum Text {
    Name,
    Label,
    Macro,
}

pub fn put_text(which: Text, n: u8, out: &mut [u8], at: usize) -> usize
    requires { (n < actions) × (at + length (text_of which n) ≤ length out.old) }
    ensures { Put out.old at (text_of which n) result out.new }
{
    match which {
        Text::Name => put_name(n, out, at),
        Text::Label => put_label(n, out, at),
        Text::Macro => put_macro_text(n, out, at),
    }
}
