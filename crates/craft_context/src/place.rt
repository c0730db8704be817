// The places of a context's fields, in their order, which refusal 1 tells. Numbers and no enum: hosts get them, and a builder's places go on from them.
pub const PLAYER_JOB_LEVEL: usize = 0;

pub const RECIPE_JOB_LEVEL: usize = 1;

pub const BASE_PROGRESS_FACTOR: usize = 2;

pub const BASE_QUALITY_FACTOR: usize = 3;

pub const STEP_MAX: usize = 4;

pub const PROGRESS_TARGET: usize = 5;

pub const STARTING_QUALITY: usize = 6;

pub const QUALITY_TARGET: usize = 7;

pub const DURABILITY_MAX: usize = 8;

pub const CP_MAX: usize = 9;

pub const IS_EXPERT: usize = 10;

pub const ACTION_POOL: usize = 11;

pub const PLAYER_IS_SPECIALIST: usize = 12;

pub const USE_MANIPULATION: usize = 13;

pub const USE_DELINEATION: usize = 14;
