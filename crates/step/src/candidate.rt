// An action with its row, inside the bounds of a row: the two go together from where the row is looked up.
ghost use Rattle.std.specs.Prelude.{◌<◌};
ghost use Rattle.action.specs.Known.{actions};
ghost use Rattle.action.specs.Bounds.{RowBounds};
ghost use Rattle.step.specs.laws.Candidate.{bounds_prop};

use action::Attributes;

#[derive(Clone, Copy)]
pub struct Candidate {
    pub n: u8,
    pub row: Attributes,
    ghost bounds: { (n < actions) × RowBounds n row } by { bounds_prop n row },
}
