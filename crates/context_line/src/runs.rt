// Runs of digits in a line.
ghost use Rattle.std.specs.Prelude.{◌≡◌, true, false, ◌+◌, ◌-◌, ◌≤◌, length, drop, MatchOption};
ghost use Rattle.text.specs.Reading.{value_of};
ghost use Rattle.context_line.specs.Shape.{digit, digits, wide};
ghost use Rattle.context_line.specs.inner.Line.{Run, Numbered};

const DIGITS_MOST: usize = 10;

fn is_digit(b: u8) -> bool
    ensures { result ≡ digit b }
{
    b.is_ascii_digit()
}

// A number has 1 to 10 digits.
fn is_wide(width: usize) -> bool
    ensures { result ≡ wide width }
{
    (1..=DIGITS_MOST).contains(&width)
}

// The place of the first byte from at on that is no digit, or the end.
fn run_end(line: &[u8], at: usize) -> usize
    requires { at ≤ length line.now }
    ensures { result ≡ at + digits (drop at line.now) }
{
    at + line[at..].iter().take_while(|b| is_digit(**b)).count()
}

// What a digit is worth.
fn worth(b: u8) -> u64
    requires { digit b ≡ true }
    ensures { (result ≡ b - 48) × (result ≤ 9) }
{
    u64::from(b - b'0')
}

// The number that a run of digits says.
fn number(run: &[u8]) -> u64
    requires { Run run.now }
    ensures { result ≡ value_of run.now }
{
    let mut value = 0;
    for b in run {
        value = value * 10 + worth(*b);
    }
    value
}

// The number at a place, and where it ends. None where no number begins, or one with too many digits.
pub fn number_at(line: &[u8], at: usize) -> Option<(u64, usize)>
    requires { at ≤ length line.now }
    ensures { MatchOption result (wide (digits (drop at line.now)) ≡ false) (λ r. Numbered line.now at r.0 r.1) }
{
    let end = run_end(line, at);
    if !is_wide(end - at) {
        return None;
    }
    Some((number(&line[at..end]), end))
}
