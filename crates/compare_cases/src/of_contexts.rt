// A context from player, recipe and options.
use compare_lines::case;
use compare_lines::page::Answer;
use compare_lines::run::Page;
use crafty::{CraftContext, CraftOptions, Player, Recipe};
use std::io::Write;
use std::{fmt, io};

// The flags, by their bits in the last number.
const FLAGS: u8 = 18;

const SPECIALIST: u32 = 1;

const MANIPULATION: u32 = 2;

const DELINEATION: u32 = 4;

const HAS_STARTING_QUALITY: u32 = 8;

const HAS_QUALITY_TARGET: u32 = 16;

const EXPERT: u32 = 32;

fn flag(line: &[u8], bit: u32) -> bool {
    case::number(line, FLAGS) & bit != 0
}

fn given(line: &[u8], i: u8, bit: u32) -> Option<u32> {
    flag(line, bit).then_some(case::number(line, i))
}

// Numbers have no sign in a case: three negative ones stand for all.
fn durability(number: u32) -> i8 {
    match number {
        128 => -1,
        129 => -19,
        _ => i8::try_from(number).unwrap_or(-128),
    }
}

fn player(line: &[u8]) -> Player {
    Player {
        job_level: case::number(line, 0),
        craftsmanship: case::number(line, 1),
        control: case::number(line, 2),
        cp: case::number(line, 3),
    }
}

fn recipe(line: &[u8]) -> Recipe {
    Recipe {
        recipe_level: case::number(line, 4),
        job_level: case::number(line, 5),
        stars: case::number(line, 6),
        progress: case::number(line, 7),
        quality: case::number(line, 8),
        durability: durability(case::number(line, 9)),
        progress_div: case::number(line, 10),
        progress_mod: case::number(line, 11),
        quality_div: case::number(line, 12),
        quality_mod: case::number(line, 13),
        is_expert: flag(line, EXPERT),
        conditions_flag: case::number(line, 14),
    }
}

fn options(line: &[u8]) -> CraftOptions {
    CraftOptions {
        max_steps: case::byte(line, 15),
        starting_quality: given(line, 16, HAS_STARTING_QUALITY),
        quality_target: given(line, 17, HAS_QUALITY_TARGET),
        player_is_specialist: flag(line, SPECIALIST),
        use_manipulation: flag(line, MANIPULATION),
        use_delineation: flag(line, DELINEATION),
    }
}

// A context, field by field.
#[derive(Clone, Copy)]
struct Row(CraftContext);

impl fmt::Display for Row {
    fn fmt<W: fmt::Write>(&self, f: &mut fmt::Formatter<W>) -> fmt::Result {
        let c = self.0;
        write!(f, "{} {}", c.player_job_level, c.recipe_job_level)?;
        write!(f, " {} {}", c.base_progress_factor, c.base_quality_factor)?;
        write!(f, " {} {}", c.step_max, c.progress_target)?;
        write!(f, " {} {}", c.starting_quality, c.quality_target)?;
        write!(f, " {} {}", c.durability_max, c.cp_max)?;
        write!(f, " {} {}", c.is_expert as u8, c.action_pool.0)?;
        write!(
            f,
            " {} {}",
            c.player_is_specialist as u8, c.use_manipulation as u8
        )?;
        write!(f, " {}", c.use_delineation as u8)
    }
}

pub fn context(page: &mut Page, line: &[u8]) -> io::Result<()> {
    let built = CraftContext::new(player(line), recipe(line), options(line));
    write!(page, "{}", Answer(built.map(Row)))
}
