// The line of a case: its kind in two digits, numbers of ten digits each, and bytes of text in a case of `compare_cases` and a replay.
ghost use Rattle.std.specs.Prelude.{◌<◌};

use crafty::Combo;

const TEXT: usize = 212;

const TEXT_ROOM: usize = 36;

// A byte past the line's end reads as 0, and so does one that is no digit.
fn digit(line: &[u8], at: usize) -> u8
    ensures { result < 10 }
{
    match line.get(at) {
        Some(b) if b.is_ascii_digit() => *b - b'0',
        _ => 0,
    }
}

pub fn kind(line: &[u8]) -> u64 {
    u64::from(digit(line, 0) * 10 + digit(line, 1))
}

// Number i of the line.
pub fn number(line: &[u8], i: u8) -> u32 {
    let start = 3 + 11 * i as usize;
    let mut value: u64 = 0;
    for k in 0..10 {
        value = value * 10 + u64::from(digit(line, start + k));
    }
    (value % 0x1_0000_0000) as u32
}

// Number i as a byte: the number of an action is one.
pub fn byte(line: &[u8], i: u8) -> u8 {
    (number(line, i) % 256) as u8
}

// Number i as a combo. A match: a `TryFrom` of its crate would be public for this line alone.
pub fn combo(line: &[u8], i: u8) -> Option<Combo> {
    match number(line, i) {
        1 => Some(Combo::BasicTouch),
        2 => Some(Combo::StandardTouch),
        3 => Some(Combo::RefinedTouch),
        4 => Some(Combo::Observe),
        _ => None,
    }
}

// Bytes of the line from a place on, where there is room for so many; else the whole line.
pub fn span(line: &[u8], start: usize, room: usize, length: usize) -> &[u8]
    requires { (start < 1000) × (room < 1000) }
{
    if length <= room && start + room <= line.len() {
        &line[start..start + length]
    } else {
        line
    }
}

// The text: its length is the first number.
pub fn text(line: &[u8]) -> &[u8] {
    span(line, TEXT, TEXT_ROOM, number(line, 0) as usize)
}

// In a line an action of a list is one byte, 64 more than its number.
pub fn unmark(text: &[u8], list: &mut [u8]) {
    for (place, b) in list.iter_mut().zip(text) {
        *place = *b % 64;
    }
}
