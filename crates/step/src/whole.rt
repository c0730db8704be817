// One action, whole, by its row: the nine parts in document 01's order.
ghost use Rattle.std.specs.Prelude.{◌≡◌};
ghost use Rattle.step.specs.Step.{executed_of};
ghost use Rattle.step.specs.inner.Asked.{Playable};

use super::candidate::Candidate;
use super::combos::{combined, paid};
use super::durability::{refreshed, worn};
use super::effects::{affected, timed};
use super::progress::{begun, progressed};
use super::quality::improved;
use craft_context::CraftContext;
use craft_state::CraftState;

// Inlined, as each of its parts is, no state is copied on the way.
#[inline(always)]
pub fn execute(context: CraftContext, state: CraftState, candidate: Candidate) -> CraftState
    requires { Playable context state candidate.n candidate.row }
    ensures { result ≡ executed_of context state candidate.n candidate.row }
{
    let Candidate { n, row } = candidate;
    let begun = begun(state, n);
    let progressed = progressed(context, begun, row.progress_efficiency);
    let improved = improved(context, progressed, n, row.quality_efficiency);
    let worn = worn(context, improved, row.durability_cost);
    let refreshed = refreshed(context, worn);
    let paid = paid(refreshed, n, row.cp_cost);
    let combined = combined(paid, n);
    let timed = timed(combined, n);
    affected(context, timed, n)
}
