// Answers the cases of compare/ on standard input, a line for each: docs/COMPARISON.md has their form.

#![tactic(auto)]

use compare_lines::case;
use compare_lines::kind::Kind;
use compare_lines::run::{Page, run};
use std::io;

mod inner;
mod of_actions;
mod of_contexts;
mod of_sets;

const WIDTH: usize = 256;

// What is no other kind's is read as a context.
fn answer(page: &mut Page, line: &[u8]) -> io::Result<()> {
    match Kind::try_from(case::kind(line)).unwrap_or(Kind::Context) {
        Kind::Attributes => of_actions::attributes(page, line),
        Kind::Price => of_actions::price(page, line),
        Kind::Wait => of_actions::wait(page, line),
        Kind::Name => of_actions::text(page, line, |n, out| crafty::name(n, out)),
        Kind::Label => of_actions::text(page, line, |n, out| crafty::label(n, out)),
        Kind::MacroText => of_actions::text(page, line, |n, out| crafty::macro_text(n, out)),
        Kind::FromName => of_actions::from_name(page, line),
        Kind::FromBits => of_sets::from_bits(page, line),
        Kind::FromList => of_sets::from_list(page, line),
        Kind::Contains => of_sets::contains(page, line),
        Kind::Set => of_sets::set(page, line),
        Kind::Unset => of_sets::unset(page, line),
        Kind::Len => of_sets::len(page, line),
        Kind::IsEmpty => of_sets::is_empty(page, line),
        Kind::Highest => of_sets::highest(page, line),
        Kind::Members => of_sets::members(page, line),
        Kind::Keep => of_sets::keep(page, line),
        Kind::ProgressIncrease => inner::put(page, inner::progress_increase(line)),
        Kind::QualityIncrease => inner::put(page, inner::quality_increase(line)),
        Kind::DurabilityCost => inner::put(page, inner::durability_cost(line)),
        _ => of_contexts::context(page, line),
    }
}

fn main(rt: HostRuntime) -> io::Result<()> {
    run::<WIDTH, _>(&rt, answer)
}
