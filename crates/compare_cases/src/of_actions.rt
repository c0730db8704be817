// Single actions.
use compare_lines::case;
use compare_lines::page::{Answer, OrDash};
use compare_lines::run::Page;
use crafty::{Attributes, Refusal};
use std::io::Write;
use std::{fmt, io};

// What a room holds before.
const DOT: u8 = b'.';

// A row of the table, field by field.
#[derive(Clone, Copy)]
struct Row(Attributes);

impl fmt::Display for Row {
    fn fmt<W: fmt::Write>(&self, f: &mut fmt::Formatter<W>) -> fmt::Result {
        let row = self.0;
        write!(f, "{} {}", row.level, OrDash(row.progress_efficiency))?;
        write!(
            f,
            " {} {}",
            OrDash(row.quality_efficiency),
            OrDash(row.durability_cost)
        )?;
        write!(f, " {}", OrDash(row.cp_cost))
    }
}

pub fn attributes(page: &mut Page, line: &[u8]) -> io::Result<()> {
    let row = crafty::attributes(case::byte(line, 0));
    write!(page, "{}", Answer(row.map(Row)))
}

pub fn price(page: &mut Page, line: &[u8]) -> io::Result<()> {
    let cost = crafty::price(case::byte(line, 0), case::combo(line, 1));
    write!(page, "{}", Answer(cost.map(OrDash)))
}

pub fn wait(page: &mut Page, line: &[u8]) -> io::Result<()> {
    write!(page, "{}", Answer(crafty::wait(case::byte(line, 0))))
}

// One of an action's texts, and the whole room after the call.
pub fn text<P: Fn(u8, &mut [u8]) -> Result<usize, Refusal>>(
    page: &mut Page,
    line: &[u8],
    put: P,
) -> io::Result<()>
    requires { P.IsAlwaysCallable put }
{
    let mut room = [DOT; 64];
    let size = case::number(line, 1) as usize;
    if size <= 64 {
        let lent = &mut room[..size];
        write!(page, "{} ", Answer(put(case::byte(line, 0), lent)))?;
        page.write_all(lent)?;
    }
    Ok(())
}

pub fn from_name(page: &mut Page, line: &[u8]) -> io::Result<()> {
    write!(page, "{}", Answer(crafty::from_name(case::text(line))))
}
