// The square root of an f32, rounded to the nearest value. Floats guess the digits of a root, and whole numbers test the guess: so no answer
// turns on a guess, and a wrong one costs time alone, that of `isqrt`. These are steps of our own, and not std's `f32::sqrt`, since the must-fail
// edits half_rounds_up and next_guess_let_in are wrong steps.

#![tactic(auto)]

ghost use Rattle.std.specs.Prelude.{◌≡◌, ◌*◌, ◌<◌, ◌≤◌};
ghost use Rattle.sqrt.specs.Sqrt.{digits_end, square_end, infinity_bits, root_near, shift_by, root_of, root_bits, sqrt_of};
ghost use Rattle.sqrt.specs.inner.Digits.{Digits};

// 2^23: what an exponent counts by in a bit pattern. It is the first pattern of a normal value, and the digit that such a pattern leaves out.
const HIDDEN: u32 = 0x80_0000;

// The zeros before the 24 digits of a normal value, in 32 bits.
const NORMAL_ZEROS: u32 = 8;

// 2^24: above each number of 24 digits.
const DIGITS_END: u64 = 0x100_0000;

// The least value above 0 is 2^-149, in which all are counted.
const LOWEST: u32 = 149;

// Half of what an exponent is counted from, less some digits: with half a pattern it makes that of a number within 4 % of the root.
const HALF_WAY: u32 = 0x1fbb_67ae;

// 2^66: above twice the root of each f32.
const BEYOND_ROOTS: f64 = 73786976294838206464.0;

// The whole number nearest to the root of n.
#[tactic(auto, using(crate::specs::laws::Cut::cut_is, crate::specs::laws::Cut::cut_lt, crate::specs::laws::Cut::near_up, crate::specs::laws::Cut::near_down))]
fn root_worked(n: u64) -> u64
    requires { n < square_end }
    ensures { (result ≡ root_near n) × (result ≤ digits_end) }
{
    let r = n.isqrt();
    if r < n - r * r { r + 1 } else { r }
}

// The same, which the guess is where n is above (guess - 1/2)^2 and below (guess + 1/2)^2.
#[tactic(auto, using(crate::specs::laws::Cut::guess_near))]
fn root_near(n: u64, guess: u64) -> u64
    requires { (n < square_end) × (guess < digits_end) }
    ensures { (result ≡ root_near n) × (result ≤ digits_end) }
{
    let square = guess * guess;
    if square < n + guess && n <= square + guess {
        return guess;
    }
    root_worked(n)
}

// 24 digits, most likely those of the root of a normal value's pattern: Halley's step from a start by the pattern, then Heron's.
// Nothing is promised of them but how many they are.
fn guess_of(b: u32) -> u64
    requires { b < infinity_bits }
    ensures { result < digits_end }
{
    let x = f32::from_bits(b) as f64;
    let start = f32::from_bits(HALF_WAY + b / 2) as f64;
    let square = start * start;
    let near = start * (square + 3.0 * x) / (3.0 * square + x);
    // twice the root has its digits: of the 52 behind the first the upper 23, rounded
    let twice = near + x / near;
    if twice < BEYOND_ROOTS {
        return DIGITS_END / 2 + ((twice.to_bits() >> 28) + 1) / 2 % (DIGITS_END / 2);
    }
    0
}

// How far m is shifted, so that it has 47 or 48 digits and the exponent that is left is even.
fn shift_of(zeros: u32, k: u32) -> u32
    requires { (zeros ≤ 32) × (k < 512) }
    ensures { (result ≡ shift_by zeros k) × (result ≤ 48) }
{
    zeros + 15 + (k + zeros) % 2
}

// The pattern of the root of m * 2^k, counted in 2^-149.
fn root_of(m: u32, k: u32, zeros: u32, guess: u64) -> u32
    requires { Digits m k zeros guess }
    ensures { (result ≡ root_of m k) × (result < infinity_bits) }
{
    let s = shift_of(zeros, k);
    let p = root_near((m as u64) << s, guess);
    (k + LOWEST - s) / 2 * HIDDEN + p as u32
}

// Of a pattern below the normal ones the one to guess by: a normal one, whose root has the same digits. Nothing is promised of it but that it is finite.
fn normal_of(b: u32, zeros: u32) -> u32
    requires { zeros ≤ 32 }
    ensures { result < infinity_bits }
{
    zeros % 2 * HIDDEN + (b << zeros.saturating_sub(NORMAL_ZEROS)) % (2 * HIDDEN)
}

// The root's bit pattern, of one that is above 0 and below the infinity's.
#[tactic(auto, using(crate::specs::laws::Patterns::of_subnormal, crate::specs::laws::Patterns::of_normal, crate::specs::laws::Scaled::normal_zeros))]
fn root_bits(b: u32) -> u32
    requires { (0 < b) × (b < infinity_bits) }
    ensures { (result ≡ root_bits b) × (result < infinity_bits) }
{
    if b < HIDDEN {
        let zeros = b.leading_zeros();
        return root_of(b, 0, zeros, guess_of(normal_of(b, zeros)));
    }
    root_of(
        HIDDEN + b % HIDDEN,
        b / HIDDEN - 1,
        NORMAL_ZEROS,
        guess_of(b),
    )
}

// Of -0 it is -0, and of a number below 0 a NaN.
pub fn sqrt(x: f32) -> f32
    ensures { result ≡ sqrt_of x }
{
    if 0.0 < x && x < f32::INFINITY {
        return f32::from_bits(root_bits(x.to_bits()));
    }
    // both zeros and the infinity
    if 0.0 <= x { x } else { f32::NAN }
}
