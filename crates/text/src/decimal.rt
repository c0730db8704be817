// Numbers in decimal, right-aligned.
ghost use Rattle.std.specs.Prelude.{◌≡◌, List, ℕ, ◌∷◌, ◌+◌, ◌≤◌, ◌<◌, length};
ghost use Rattle.text.specs.Over.{Put};
ghost use Rattle.text.specs.Decimal.{decimal_of, signed_of, right_of};
ghost use Rattle.text.specs.inner.Spelled.{Spelled, held_of};

use crate::append::put;

// A text of at most ten bytes: the last of ten, from `from` on, with spaces before it. A number is spelled from its end, and there is no heap.
#[derive(Clone, Copy)]
pub struct Digits {
    bytes: [u8; 10],
    from: usize,
}

// A number that ten bytes spell in decimal.
pub trait Decimal {
    ghost text: { Self → List ℕ };

    fn spell(self) -> Digits
        ensures { Spelled (text self) result };
}

impl Decimal for u32 {
    ghost text = { decimal_of };

    // Filled from the last digit on.
    fn spell(self) -> Digits {
        let mut bytes = [b' '; 10];
        let mut from: usize = 10;
        let mut rest = self;
        // no `for`: it always returns from within, and past a range's end there would stand an answer that is never given
        loop {
            from -= 1;
            bytes[from] = b'0' + (rest % 10) as u8;
            if rest < 10 {
                return Digits { bytes, from };
            }
            rest /= 10;
        }
    }
}

impl Decimal for i8 {
    ghost text = { signed_of };

    fn spell(self) -> Digits {
        let digits = u32::from(self.unsigned_abs()).spell();
        if self < 0 { minus(digits) } else { digits }
    }
}

// A minus sign in the place before the text.
fn minus(d: Digits) -> Digits
    requires { (0 < d.from) × Spelled (held_of d) d }
    ensures { Spelled (45 ∷ held_of d) result }
{
    let mut bytes = d.bytes;
    let from = d.from - 1;
    bytes[from] = b'-';
    Digits { bytes, from }
}

// Stores n in decimal, right-aligned: `{:>width}`.
pub fn put_number<T: Decimal>(out: &mut [u8], at: usize, n: T, width: usize) -> usize
    requires { (at + 10 ≤ length out.old) × (width ≤ 10) }
    ensures { Put out.old at (right_of width (T.text n)) result out.new × (result ≤ at + 10) }
{
    let digits = n.spell();
    let start = digits.from.min(10 - width);
    put(out, at, &digits.bytes[start..])
}
