// The mode of a call: strict mode holds back moves that seldom serve.
ghost use Rattle.std.specs.Prelude.{◌≡◌};
ghost use Rattle.moves.specs.Modes.{mode_of};

// A struct, not an enum, since its modes are constants that belong to the type (docs/DECISIONS.md, "Forms").
#[derive(Clone, Copy, Debug, PartialEq, Eq)]
pub struct Mode {
    pub strict: bool,
}

impl Mode {
    pub const PLAIN: Mode = Mode { strict: false };

    pub const STRICT: Mode = Mode { strict: true };
}

// By a host's flag.
pub fn mode_of(strict: bool) -> Mode
    ensures { result ≡ mode_of strict }
{
    if strict { Mode::STRICT } else { Mode::PLAIN }
}
