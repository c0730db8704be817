// Answers the states, replays and Display lines of compare/ on standard input, a line for each: docs/COMPARISON.md has their form.

#![tactic(auto)]

use compare_lines::case;
use compare_lines::kind::Kind;
use compare_lines::run::{Page, run};
use std::io;

mod answer;
mod displays;
mod replays;
mod show;
mod state;

const WIDTH: usize = 512;

// What is no other kind's is read as a state.
fn answer_line(page: &mut Page, line: &[u8]) -> io::Result<()> {
    match Kind::try_from(case::kind(line)) {
        Ok(Kind::Replay) => replays::answer(page, line),
        Ok(Kind::Display) => displays::answer(page, line),
        _ => answer::answer(page, line),
    }
}

fn main(rt: HostRuntime) -> io::Result<()> {
    run::<WIDTH, _>(&rt, answer_line)
}
