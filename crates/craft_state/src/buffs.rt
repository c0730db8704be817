// The buffs: inner quiet, and the seven timers.
ghost use Rattle.std.specs.Prelude.{◌≡◌};
ghost use Rattle.craft_state.specs.Limits.{buffs_inside};
ghost use Rattle.craft_state.specs.Start.{no_buffs};

#[derive(Clone, Copy, Debug, PartialEq, Eq)]
pub struct Buffs {
    pub inner_quiet: u8,
    pub waste_not: u8,
    pub waste_not_ii: u8,
    pub manipulation: u8,
    pub great_strides: u8,
    pub innovation: u8,
    pub veneration: u8,
    pub muscle_memory: u8,
}

impl Buffs {
    pub const INNER_QUIET_MOST: u8 = 10;

    // What an effect sets a timer to is the most that it can be.
    pub const WASTE_NOT_MOST: u8 = 4;

    pub const WASTE_NOT_II_MOST: u8 = 8;

    pub const MANIPULATION_MOST: u8 = 8;

    pub const GREAT_STRIDES_MOST: u8 = 3;

    pub const INNOVATION_MOST: u8 = 4;

    pub const VENERATION_MOST: u8 = 4;

    pub const MUSCLE_MEMORY_MOST: u8 = 5;

    // None of them.
    pub fn new() -> Buffs
        ensures { result ≡ no_buffs }
    {
        Buffs {
            inner_quiet: 0,
            waste_not: 0,
            waste_not_ii: 0,
            manipulation: 0,
            great_strides: 0,
            innovation: 0,
            veneration: 0,
            muscle_memory: 0,
        }
    }

    pub fn are_inside(self) -> bool
        ensures { result ≡ buffs_inside self }
    {
        (self.inner_quiet <= Buffs::INNER_QUIET_MOST)
            & (self.waste_not <= Buffs::WASTE_NOT_MOST)
            & (self.waste_not_ii <= Buffs::WASTE_NOT_II_MOST)
            & (self.manipulation <= Buffs::MANIPULATION_MOST)
            & (self.great_strides <= Buffs::GREAT_STRIDES_MOST)
            & (self.innovation <= Buffs::INNOVATION_MOST)
            & (self.veneration <= Buffs::VENERATION_MOST)
            & (self.muscle_memory <= Buffs::MUSCLE_MEMORY_MOST)
    }
}
