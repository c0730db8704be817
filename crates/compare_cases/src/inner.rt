// The inner functions of one action, inside the limits that compare/ has too.
ghost use Rattle.std.specs.Prelude.{◌≡◌, ◌≤◌, IfSome};

use compare_lines::case;
use compare_lines::run::Page;
use crafty::{Buffs, CraftContext};
use std::io;
use std::io::Write;

const LAST_ACTION: u32 = 30;

const PROGRESS: u32 = 500;

const QUALITY: u32 = 300;

const TIMER: u32 = 8;

const WEAR: u32 = 20;

// Of a trained perfection that was never used, is active, or is spent.
const ACTIVE: u32 = 1;

const SPENT: u32 = 2;

// Number i, if it is inside its limit.
fn within(line: &[u8], i: u8, most: u32) -> Option<u32>
    ensures { IfSome result (λ n. n ≤ most) }
{
    let n = case::number(line, i);
    if n <= most { Some(n) } else { None }
}

fn timer(line: &[u8], i: u8) -> Option<u8> {
    Some(within(line, i, TIMER)? as u8)
}

pub fn progress_increase(line: &[u8]) -> Option<u32> {
    let base = within(line, 0, CraftContext::FACTOR_MOST)?;
    let efficiency = within(line, 1, PROGRESS)?;
    let veneration = timer(line, 2)?;
    let muscle_memory = timer(line, 3)?;
    Some(action::calc_progress_increase(base, efficiency, veneration, muscle_memory))
}

pub fn quality_increase(line: &[u8]) -> Option<u32> {
    let n = within(line, 0, LAST_ACTION)? as u8;
    let base = within(line, 1, CraftContext::FACTOR_MOST)?;
    let efficiency = within(line, 2, QUALITY)?;
    let inner_quiet = within(line, 3, Buffs::INNER_QUIET_MOST as u32)? as u8;
    let innovation = timer(line, 4)?;
    let great_strides = timer(line, 5)?;
    let missing = within(line, 6, CraftContext::TARGET_MOST)?;
    Some(action::calc_quality_increase(
        n,
        missing,
        base,
        efficiency,
        inner_quiet,
        innovation,
        great_strides,
    ))
}

pub fn durability_cost(line: &[u8]) -> Option<u32> {
    let base = within(line, 0, WEAR)?;
    let perfection = within(line, 1, SPENT)?;
    let waste_not = timer(line, 2)?;
    let waste_not_ii = timer(line, 3)?;
    Some(action::calc_durability_cost(base, perfection == ACTIVE, waste_not, waste_not_ii))
}

pub fn put(page: &mut Page, answer: Option<u32>) -> io::Result<()> {
    match answer {
        Some(n) => write!(page, "{n}"),
        None => write!(page, "outside"),
    }
}
