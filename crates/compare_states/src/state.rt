// The context and the state of a line, field by field.
use compare_lines::case;
use crafty::{ActionSet, Buffs, CraftContext, CraftState, Perfection};

pub fn flag(line: &[u8], i: u8) -> bool {
    case::number(line, i) == 1
}

// Number i as the i8 that has its byte.
fn signed(line: &[u8], i: u8) -> i8 {
    i8::from_le_bytes([case::byte(line, i)])
}

// As `case::combo`.
fn perfection(number: u32) -> Perfection {
    match number {
        1 => Perfection::Active,
        2 => Perfection::Spent,
        _ => Perfection::Unused,
    }
}

pub fn context(line: &[u8]) -> CraftContext {
    CraftContext {
        player_job_level: case::number(line, 0),
        recipe_job_level: case::number(line, 1),
        base_progress_factor: case::number(line, 2),
        base_quality_factor: case::number(line, 3),
        step_max: case::byte(line, 4),
        progress_target: case::number(line, 5),
        starting_quality: case::number(line, 6),
        quality_target: case::number(line, 7),
        durability_max: signed(line, 8),
        cp_max: case::number(line, 9),
        is_expert: flag(line, 10),
        action_pool: ActionSet(case::number(line, 11)),
        player_is_specialist: flag(line, 12),
        use_manipulation: flag(line, 13),
        use_delineation: flag(line, 14),
    }
}

fn buffs(line: &[u8]) -> Buffs {
    Buffs {
        inner_quiet: case::byte(line, 23),
        waste_not: case::byte(line, 24),
        waste_not_ii: case::byte(line, 25),
        manipulation: case::byte(line, 26),
        great_strides: case::byte(line, 27),
        innovation: case::byte(line, 28),
        veneration: case::byte(line, 29),
        muscle_memory: case::byte(line, 30),
    }
}

pub fn state(line: &[u8]) -> CraftState {
    CraftState {
        step: case::byte(line, 15),
        progress: case::number(line, 16),
        quality: case::number(line, 17),
        durability: signed(line, 18),
        cp: case::number(line, 19),
        previous_combo_action: case::combo(line, 20),
        quick_innovation_available: flag(line, 21),
        trained_perfection_active: perfection(case::number(line, 22)),
        buffs: buffs(line),
        // 256 stands for no action.
        action: u8::try_from(case::number(line, 31)).ok(),
    }
}
