// The answer of a Display line: its length or the refusal, and the whole lent room after the call.
use super::state;
use compare_lines::case;
use compare_lines::page::Answer;
use compare_lines::run::Page;
use std::io;
use std::io::Write;

// What a room holds before.
const DOT: u8 = b'.';

const LENT_MOST: usize = 160;

// A line that asks for too large a room has an empty answer.
pub fn answer(page: &mut Page, line: &[u8]) -> io::Result<()> {
    let mut room = [DOT; LENT_MOST];
    let size = case::number(line, 32) as usize;
    if size <= LENT_MOST {
        let lent = &mut room[..size];
        let written = crafty::display(state::context(line), state::state(line), lent);
        write!(page, "{} ", Answer(written))?;
        page.write_all(lent)?;
    }
    Ok(())
}
