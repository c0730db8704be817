// The answer of a state: the start of its craft, moves, results and score, and every step from it, joined by `; `.
use super::show::{Row, Verdict};
use super::state;
use compare_lines::page::{Answer, Bits};
use compare_lines::run::Page;
use crafty::{CraftContext, CraftState, Mode, Refusal};
use std::io;
use std::io::Write;

// One more than there are actions, so that an unknown one is asked for too.
const STEPS: u8 = 32;

const MODES: [Mode; 2] = [Mode::PLAIN, Mode::STRICT];

fn put_steps(page: &mut Page, c: CraftContext, s: CraftState, mode: Mode) -> io::Result<()> {
    for n in 0..STEPS {
        match crafty::step(c, s, mode, n) {
            // A move that is not legal is a dash, so that lines stay short.
            Err(Refusal::IllegalAction) => write!(page, "; -")?,
            stepped => write!(page, "; {}", Answer(stepped.map(Row)))?,
        }
    }
    Ok(())
}

// Moves and results in both modes, and the score.
fn put_verdicts(page: &mut Page, c: CraftContext, s: CraftState) -> io::Result<()> {
    for mode in MODES {
        write!(
            page,
            "; {}",
            Answer(crafty::moves(c, s, mode).map(|set| set.0))
        )?;
    }
    for mode in MODES {
        write!(
            page,
            "; {}",
            Answer(crafty::result(c, s, mode).map(Verdict))
        )?;
    }
    write!(page, "; {}", Answer(crafty::score(c, s).map(Bits)))
}

pub fn answer(page: &mut Page, line: &[u8]) -> io::Result<()> {
    let c = state::context(line);
    let s = state::state(line);
    write!(page, "{}", Answer(CraftState::new(c).map(Row)))?;
    put_verdicts(page, c, s)?;
    for mode in MODES {
        put_steps(page, c, s, mode)?;
    }
    Ok(())
}
