// The answer of a replay: the state where it stopped, its moves, the result and how many actions were executed, joined by `; `.
use super::show::{Row, Verdict};
use super::state;
use compare_lines::case;
use compare_lines::page::Answer;
use compare_lines::run::Page;
use crafty::{Mode, Replay};
use std::io::Write;
use std::{fmt, io};

const LIST: usize = 190;

const LIST_ROOM: usize = 300;

#[derive(Clone, Copy)]
struct Played(Replay);

impl fmt::Display for Played {
    fn fmt<W: fmt::Write>(&self, f: &mut fmt::Formatter<W>) -> fmt::Result {
        let played = self.0;
        write!(f, "{}; {}", Row(played.state), played.moves.0)?;
        write!(
            f,
            "; {}; executed {}",
            Verdict(played.result),
            played.executed
        )
    }
}

// A line whose list is too long for it has an empty answer.
pub fn answer(page: &mut Page, line: &[u8]) -> io::Result<()> {
    let marks = case::span(line, LIST, LIST_ROOM, case::number(line, 16) as usize);
    let mut list = [0u8; LIST_ROOM];
    case::unmark(marks, &mut list);
    if marks.len() <= LIST_ROOM {
        let mode = Mode {
            strict: state::flag(line, 15),
        };
        let replayed = crafty::replay(state::context(line), mode, &list[..marks.len()]);
        write!(page, "{}", Answer(replayed.map(Played)))?;
    }
    Ok(())
}
