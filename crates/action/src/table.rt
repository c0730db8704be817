// The attributes of each action, decided by its number.
ghost use Rattle.std.specs.Prelude.{◌≡◌};
ghost use Rattle.action.specs.Table.{row as Table·row, attributes_of};

// An attribute that an action has not is absent, which is not 0.
#[derive(Clone, Copy, Debug, PartialEq, Eq)]
pub struct Attributes {
    pub level: u32,
    pub progress_efficiency: Option<u32>,
    pub quality_efficiency: Option<u32>,
    pub durability_cost: Option<u32>,
    pub cp_cost: Option<u32>,
}

fn row(
    level: u32,
    progress: Option<u32>,
    quality: Option<u32>,
    durability: Option<u32>,
    cp: Option<u32>,
) -> Attributes
    ensures { result ≡ Table·row level progress quality durability cp }
{
    Attributes {
        level,
        progress_efficiency: progress,
        quality_efficiency: quality,
        durability_cost: durability,
        cp_cost: cp,
    }
}

// A number above 30 has no attribute: who takes any number refuses those first.
pub fn attributes_of(n: u8) -> Attributes
    ensures { result ≡ attributes_of n }
{
    match n {
        0 => row(1, Some(100), None, Some(10), None),
        1 => row(5, None, Some(100), Some(10), Some(18)),
        2 => row(7, None, None, Some(0), Some(88)),
        3 => row(13, None, None, Some(0), Some(7)),
        4..=5 => {
            let cp = if n == 4 { 56 } else { 18 };
            row(15, None, None, None, Some(cp))
        }
        6 => row(18, None, Some(125), Some(10), Some(32)),
        7 => row(21, None, None, None, Some(32)),
        8 => row(26, None, None, None, Some(18)),
        9 => row(31, Some(120), None, Some(10), None),
        10 => row(47, None, None, None, Some(98)),
        11 => row(50, None, Some(0), Some(10), Some(24)),
        12 => row(54, Some(300), None, Some(10), Some(6)),
        13 => row(62, Some(150), None, Some(10), Some(7)),
        14 => row(65, None, None, None, Some(96)),
        15 => row(66, None, Some(100), Some(5), Some(25)),
        16 => row(68, None, Some(150), Some(10), Some(46)),
        17 => row(69, None, Some(300), Some(10), Some(6)),
        18 => row(71, None, Some(200), Some(20), Some(40)),
        19 => row(72, Some(300), None, Some(20), Some(18)),
        20 => row(76, Some(100), Some(100), Some(10), Some(32)),
        21 => row(80, None, Some(0), Some(0), Some(250)),
        22 => row(82, Some(180), None, Some(10), Some(7)),
        23 => row(86, Some(360), None, Some(20), Some(18)),
        24 => row(88, Some(180), None, Some(5), Some(18)),
        25 => row(90, None, Some(100), None, Some(32)),
        26 => row(92, None, Some(100), Some(10), Some(24)),
        27 => row(94, Some(150), Some(100), Some(10), Some(32)),
        28 | 30 => {
            let level = if n == 28 { 96 } else { 100 };
            row(level, None, None, Some(0), None)
        }
        29 => row(98, None, None, Some(0), Some(112)),
        31..=255 => row(0, None, None, None, None),
    }
}
