// Numbers in hexadecimal.
ghost use Rattle.std.specs.Prelude.{◌≡◌, ◌+◌, ◌≤◌, ◌<◌, length};
ghost use Rattle.text.specs.Over.{Put};
ghost use Rattle.text.specs.Hex.{hex_digit, hex_of};

use crate::append::put;

fn hex_digit(d: u8) -> u8
    requires { d < 16 }
    ensures { result ≡ hex_digit d }
{
    if d < 10 { b'0' + d } else { b'A' + (d - 10) }
}

// Stores n as eight capital digits.
pub fn put_hex(out: &mut [u8], at: usize, n: u32) -> usize
    requires { at + 8 ≤ length out.old }
    ensures { Put out.old at (hex_of n) result out.new }
{
    let mut bytes = [b' '; 8];
    let mut rest = n;
    for i in (0..8).rev() {
        bytes[i] = hex_digit((rest % 16) as u8);
        rest /= 16;
    }
    put(out, at, &bytes)
}
