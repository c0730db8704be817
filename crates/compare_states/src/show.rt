// A state in words, its seventeen fields in order, and a result.
ghost use Rattle.std.specs.Prelude.{◌≡◌};
ghost use Rattle.action.specs.Price.{combo_number};
ghost use Rattle.craft_state.specs.Perfection.{perfection_number};

use compare_lines::page::{Bits, OrDash};
use crafty::{Combo, CraftResult, CraftState, Perfection};
use std::fmt;

// The line's own numbers, as casts.
fn combo(c: Option<Combo>) -> u32
    ensures { result ≡ combo_number c }
{
    c.map_or(0, |combo| combo as u32 + 1)
}

fn perfection(p: Perfection) -> u32
    ensures { result ≡ perfection_number p }
{
    p as u32
}

// A state, field by field.
#[derive(Clone, Copy)]
pub struct Row(pub CraftState);

impl fmt::Display for Row {
    fn fmt<W: fmt::Write>(&self, f: &mut fmt::Formatter<W>) -> fmt::Result {
        let s = self.0;
        let b = s.buffs;
        write!(
            f,
            "{} {} {} {} {}",
            s.step, s.progress, s.quality, s.durability, s.cp
        )?;
        write!(f, " {}", combo(s.previous_combo_action))?;
        write!(f, " {}", s.quick_innovation_available as u8)?;
        write!(f, " {}", perfection(s.trained_perfection_active))?;
        write!(f, " {} {} {}", b.inner_quiet, b.waste_not, b.waste_not_ii)?;
        write!(
            f,
            " {} {} {}",
            b.manipulation, b.great_strides, b.innovation
        )?;
        write!(
            f,
            " {} {} {}",
            b.veneration,
            b.muscle_memory,
            OrDash(s.action)
        )
    }
}

#[derive(Clone, Copy)]
pub struct Verdict(pub CraftResult);

impl fmt::Display for Verdict {
    fn fmt<W: fmt::Write>(&self, f: &mut fmt::Formatter<W>) -> fmt::Result {
        match self.0 {
            CraftResult::Finished(score) => write!(f, "finished {}", Bits(score)),
            CraftResult::DurabilityFailure => write!(f, "durability"),
            CraftResult::MaxStepsFailure => write!(f, "steps"),
            CraftResult::InvalidActionFailure => write!(f, "invalid"),
            CraftResult::Continuing => write!(f, "continuing"),
        }
    }
}
