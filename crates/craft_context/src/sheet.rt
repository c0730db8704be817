// What a context is built from: player, recipe and options, with the fields of the Rust in its order.
#[derive(Clone, Copy, Debug, PartialEq, Eq)]
pub struct Player {
    pub job_level: u32,
    pub craftsmanship: u32,
    pub control: u32,
    pub cp: u32,
}

#[derive(Clone, Copy, Debug, PartialEq, Eq)]
pub struct Recipe {
    pub recipe_level: u32,
    pub job_level: u32,
    pub stars: u32,
    pub progress: u32,
    pub quality: u32,
    pub durability: i8,
    pub progress_div: u32,
    pub progress_mod: u32,
    pub quality_div: u32,
    pub quality_mod: u32,
    pub is_expert: bool,
    pub conditions_flag: u32,
}

#[derive(Clone, Copy, Debug, PartialEq, Eq)]
pub struct CraftOptions {
    pub max_steps: u8,
    pub starting_quality: Option<u32>,
    pub quality_target: Option<u32>,
    pub player_is_specialist: bool,
    pub use_manipulation: bool,
    pub use_delineation: bool,
}
