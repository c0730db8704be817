// What a line asks for, by the number that it begins with: docs/COMPARISON.md has the form of each.

// In the order of their numbers, from 1 on.
#[derive(Clone, Copy, Debug, PartialEq, Eq)]
pub enum Kind {
    Attributes,
    Price,
    Wait,
    Name,
    Label,
    MacroText,
    FromName,
    FromBits,
    FromList,
    Contains,
    Set,
    Unset,
    Len,
    IsEmpty,
    Highest,
    Members,
    Keep,
    ProgressIncrease,
    QualityIncrease,
    DurabilityCost,
    Context,
    State,
    Replay,
    Display,
}

// A number that is no kind's.
#[derive(Clone, Copy, Debug, PartialEq, Eq)]
pub struct UnknownKind(pub u64);

impl TryFrom<u64> for Kind {
    type Error = UnknownKind;

    fn try_from(number: u64) -> Result<Kind, UnknownKind> {
        match number {
            1 => Ok(Kind::Attributes),
            2 => Ok(Kind::Price),
            3 => Ok(Kind::Wait),
            4 => Ok(Kind::Name),
            5 => Ok(Kind::Label),
            6 => Ok(Kind::MacroText),
            7 => Ok(Kind::FromName),
            8 => Ok(Kind::FromBits),
            9 => Ok(Kind::FromList),
            10 => Ok(Kind::Contains),
            11 => Ok(Kind::Set),
            12 => Ok(Kind::Unset),
            13 => Ok(Kind::Len),
            14 => Ok(Kind::IsEmpty),
            15 => Ok(Kind::Highest),
            16 => Ok(Kind::Members),
            17 => Ok(Kind::Keep),
            18 => Ok(Kind::ProgressIncrease),
            19 => Ok(Kind::QualityIncrease),
            20 => Ok(Kind::DurabilityCost),
            21 => Ok(Kind::Context),
            22 => Ok(Kind::State),
            23 => Ok(Kind::Replay),
            24 => Ok(Kind::Display),
            _ => Err(UnknownKind(number)),
        }
    }
}
