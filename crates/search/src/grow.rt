// The iterations of a search, one after the other.
ghost use Rattle.search.specs.inner.Ready.{Started, GrowsTo};

use super::entry::Progress;
use super::iterate::iterate;
use super::links::LINKS;
use super::options::SearchOptions;
use craft_context::CraftContext;
use refusal::Refusal;
use tree::Node;

// From record 0, up to the first that is refused, which is not counted.
pub fn grow(
    nodes: &mut [Node],
    logs: &[f32],
    draws: &[u8],
    context: CraftContext,
    options: SearchOptions,
) -> Result<Progress, (Refusal, Progress)>
    requires { Started context options logs.now nodes.old }
    ensures { GrowsTo context options logs.now draws.now nodes.old result nodes.new }
{
    let mut links = [0u32; LINKS];
    let mut done = Progress {
        iterations: 0,
        records: 1,
        draws: 0,
    };
    for i in 0..options.iterations {
        match iterate(
            nodes,
            &mut links,
            logs,
            draws,
            context,
            options,
            done.records,
            done.draws,
        ) {
            Ok(turned) => {
                done = Progress {
                    iterations: i + 1,
                    records: turned.count,
                    draws: turned.at,
                };
            }
            Err(x) => return Err((x, done)),
        }
    }
    Ok(done)
}
