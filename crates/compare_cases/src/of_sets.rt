// Sets of actions.
use action_set::bits::{self, Bits};
use compare_lines::case;
use compare_lines::page::Answer;
use compare_lines::run::Page;
use crafty::{ActionSet, Refusal};
use std::io;
use std::io::Write;

// What a room holds before: no action.
const UNTOUCHED: u8 = 255;

fn set_of(line: &[u8]) -> ActionSet {
    ActionSet(case::number(line, 0))
}

fn put_set(page: &mut Page, answer: Result<ActionSet, Refusal>) -> io::Result<()> {
    write!(page, "{}", Answer(answer.map(|set| set.0)))
}

fn put_asked(page: &mut Page, answer: Result<bool, Refusal>) -> io::Result<()> {
    write!(
        page,
        "{}",
        Answer(answer.map(|is| if is { "yes" } else { "no" }))
    )
}

pub fn from_bits(page: &mut Page, line: &[u8]) -> io::Result<()> {
    put_set(page, ActionSet::from_bits(case::number(line, 0)))
}

pub fn from_list(page: &mut Page, line: &[u8]) -> io::Result<()> {
    let text = case::text(line);
    let mut list = [0u8; 36];
    case::unmark(text, &mut list);
    if text.len() <= 36 {
        return put_set(page, ActionSet::from_list(&list[..text.len()]));
    }
    Ok(())
}

pub fn contains(page: &mut Page, line: &[u8]) -> io::Result<()> {
    put_asked(page, set_of(line).contains(case::byte(line, 1)))
}

pub fn set(page: &mut Page, line: &[u8]) -> io::Result<()> {
    put_set(page, set_of(line).set(case::byte(line, 1)))
}

pub fn unset(page: &mut Page, line: &[u8]) -> io::Result<()> {
    put_set(page, set_of(line).unset(case::byte(line, 1)))
}

pub fn len(page: &mut Page, line: &[u8]) -> io::Result<()> {
    write!(page, "{}", Answer(set_of(line).len()))
}

pub fn is_empty(page: &mut Page, line: &[u8]) -> io::Result<()> {
    put_asked(page, set_of(line).is_empty())
}

pub fn highest(page: &mut Page, line: &[u8]) -> io::Result<()> {
    match set_of(line).highest() {
        Ok(None) => write!(page, "none"),
        answer => write!(page, "{}", Answer(answer.map(|top| top.unwrap_or(0)))),
    }
}

fn shown(place: u8) -> u8 {
    match place {
        UNTOUCHED => b'.',
        n => 64 + n % 64,
    }
}

// How many members, and the whole room after the call.
pub fn members(page: &mut Page, line: &[u8]) -> io::Result<()> {
    let mut room = [UNTOUCHED; 40];
    let places = case::number(line, 1) as usize;
    if places <= 40 {
        let lent = &mut room[..places];
        write!(page, "{} ", Answer(set_of(line).members(lent)))?;
        for place in lent {
            page.write_all(&[shown(*place)])?;
        }
    }
    Ok(())
}

// The members of a set that a second one has too.
#[tactic(auto, unfolding(refusal::specs::Judge::judged))]
fn kept(set: ActionSet, passing: ActionSet) -> Result<u32, Refusal> {
    set.check()?;
    passing.check()?;
    let kept = Bits { bits: set.0 }.keep(|n| bits::holds(passing.0, n));
    Ok(kept.bits)
}

pub fn keep(page: &mut Page, line: &[u8]) -> io::Result<()> {
    let passing = ActionSet(case::number(line, 1));
    write!(page, "{}", Answer(kept(set_of(line), passing)))
}
